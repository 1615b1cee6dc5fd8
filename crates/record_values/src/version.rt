//! The versions of the record text.

/// A version of the record text.
#[derive(Clone, Copy, Debug, PartialEq, Eq)]
pub enum TextVersion {
    /// Records alone.
    First,
    /// Each record behind its transaction: who applied it, and what was read for it.
    Second,
}
