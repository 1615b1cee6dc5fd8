//! What can be wrong with a record's line.

ghost use Rattle.std.specs.Prelude.{◌≡◌};
ghost use Rattle.record_fields.specs.Faults.{unless, lower};

/// What is wrong with a line, by ascending number.
#[derive(Clone, Copy, Debug, PartialEq, Eq)]
pub enum LineFault {
    /// F2: the line is not of its form.
    BadLine,
    /// F3: an id of a row or column that there is not, or no longer.
    BadId,
    /// F6: a number past the range.
    NumberPast,
}

/// A fault where something does not hold.
pub fn unless(holds: bool, fault: LineFault) -> Option<LineFault>
    ensures { result ≡ unless holds fault }
{
    if holds { None } else { Some(fault) }
}

/// Of two faults the one with the lower number.
pub fn lower(one: Option<LineFault>, other: Option<LineFault>) -> Option<LineFault>
    ensures { result ≡ lower one other }
{
    match (one, other) {
        (None, other) => other,
        (Some(LineFault::BadLine), _) => Some(LineFault::BadLine),
        (Some(LineFault::BadId), Some(LineFault::BadLine)) => Some(LineFault::BadLine),
        (Some(LineFault::BadId), _) => Some(LineFault::BadId),
        (Some(LineFault::NumberPast), None) => Some(LineFault::NumberPast),
        (Some(LineFault::NumberPast), Some(fault)) => Some(fault),
    }
}
