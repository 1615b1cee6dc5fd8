//! Where a text is wrong.

/// What is wrong with a line of a text, and which line it is, from 1 on. Where a line is missing it is the one past the last.
#[derive(Clone, Copy, Debug, PartialEq, Eq)]
pub struct Fault<K> {
    pub kind: K,
    pub line: u64,
}
