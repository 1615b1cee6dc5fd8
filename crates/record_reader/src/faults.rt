//! Why a text gives no records.

ghost use Rattle.std.specs.Prelude.{◌≡◌};
ghost use Rattle.record_reader.specs.Faults.{number_of_kind, kind_of};
ghost use Rattle.record_reader.specs.declared.faults.TakeError.TheVariants.{NoMemory as TakeNoMemory};
ghost use Rattle.record_reader.specs.declared.faults.RecordError.TheVariants.{NoMemory};

use record_fields::faults::LineFault;
use std::alloc::AllocError;
use text_lines::Fault;
use thiserror::Error;

/// What is wrong with a record text, by ascending number: F1 to F4, F6 and F9.
#[derive(Clone, Copy, Debug, PartialEq, Eq)]
pub enum RecordFaultKind {
    /// F1: the first line is not the header of a version that is read.
    BadHeader,
    /// F2: a line is not of its form, or stands behind the end.
    BadLine,
    /// F3: an id of a row or column that there is not or no longer, or labels that say otherwise than the records.
    BadId,
    /// F4: the text ends before its end line.
    Cut,
    /// F6: a number past the range.
    NumberPast,
    /// F9: a transaction with another place than its record's, or whose version is not below that.
    BadTransaction,
}

impl RecordFaultKind {
    /// The number behind the F.
    pub fn number(&self) -> u8
        ensures { result ≡ number_of_kind self.now }
    {
        match self {
            RecordFaultKind::BadHeader => 1,
            RecordFaultKind::BadLine => 2,
            RecordFaultKind::BadId => 3,
            RecordFaultKind::Cut => 4,
            RecordFaultKind::NumberPast => 6,
            RecordFaultKind::BadTransaction => 9,
        }
    }
}

/// Why a text gives no records.
#[derive(Clone, Copy, Debug, PartialEq, Eq, Error)]
pub enum RecordError {
    /// The first fault by line, and at one line the one with the lowest number.
    #[error("line {}: F{}", .0.line, .0.kind.number())]
    Fault(Fault<RecordFaultKind>),
    /// Want of memory.
    #[error("out of memory")]
    NoMemory,
}

impl From<AllocError> for RecordError {
    ghost from_gives = { λ _ e. e ≡ NoMemory };

    fn from(_e: AllocError) -> RecordError {
        RecordError::NoMemory
    }
}

/// Why a line is not taken in.
#[derive(Clone, Copy, Debug, PartialEq, Eq)]
pub enum TakeError {
    /// What is wrong with it.
    Fault(RecordFaultKind),
    /// Want of memory.
    NoMemory,
}

impl From<AllocError> for TakeError {
    ghost from_gives = { λ _ e. e ≡ TakeNoMemory };

    fn from(_e: AllocError) -> TakeError {
        TakeError::NoMemory
    }
}

/// A line's fault among those of a text.
pub fn kind_of(fault: LineFault) -> RecordFaultKind
    ensures { result ≡ kind_of fault }
{
    match fault {
        LineFault::BadLine => RecordFaultKind::BadLine,
        LineFault::BadId => RecordFaultKind::BadId,
        LineFault::NumberPast => RecordFaultKind::NumberPast,
    }
}
