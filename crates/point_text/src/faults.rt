//! Why a text gives no point.

ghost use Rattle.std.specs.Prelude.{◌≡◌, ◌≤◌};
ghost use Rattle.point_text.specs.Faults.{number_of_kind};
ghost use Rattle.point_text.specs.declared.faults.SolError.TheVariants.{NoMemory};

use std::alloc::AllocError;
use text_lines::Fault;

/// What is wrong with a line of a solution, by ascending number: S1 to S5.
#[derive(Clone, Copy, Debug, PartialEq, Eq)]
pub enum SolFaultKind {
    /// S1: the line has not two fields.
    BadLine,
    /// S2: no column has the name.
    UnknownName,
    /// S3: a line before it has the name.
    TwiceNamed,
    /// S4: a number that is past the range.
    NumberPast,
    /// S5: not a number.
    BadNumber,
}

impl SolFaultKind {
    /// The number behind the S, from 1 to 5.
    pub fn number(&self) -> u8
        ensures number { result ≡ number_of_kind self.now }
        ensures least { 1 ≤ result }
        ensures most { result ≤ 5 }
    {
        match self {
            SolFaultKind::BadLine => 1,
            SolFaultKind::UnknownName => 2,
            SolFaultKind::TwiceNamed => 3,
            SolFaultKind::NumberPast => 4,
            SolFaultKind::BadNumber => 5,
        }
    }
}

/// Why a text gives no point.
#[derive(Clone, Copy, Debug, PartialEq, Eq)]
pub enum SolError {
    /// The first fault by line, and at one line the one with the lowest number.
    Fault(Fault<SolFaultKind>),
    /// Want of memory.
    NoMemory,
}

impl From<AllocError> for SolError {
    ghost from_gives = { λ _ e. e ≡ NoMemory };

    fn from(_e: AllocError) -> SolError {
        SolError::NoMemory
    }
}
