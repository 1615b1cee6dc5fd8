//! How a text is read.

use number_texts::Numbers;

/// How the fields of a card are separated.
#[derive(Clone, Copy, Debug, PartialEq, Eq)]
pub enum Format {
    /// By spaces and tabs.
    Free,
    /// By columns.
    Fixed,
}

/// How a text is read: its format, and the numbers that are taken.
#[derive(Clone, Copy, Debug, PartialEq, Eq)]
pub struct Dialect {
    pub format: Format,
    pub numbers: Numbers,
}
