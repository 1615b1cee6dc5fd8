//! What can be wrong with a text.

ghost use Rattle.std.specs.Prelude.{◌≡◌, ◌≤◌, ◌<◌, IsTrue, ◌↔◌};
ghost use Rattle.opb_text.specs.Faults.{number_of_kind, lesser};

/// What is wrong with a text, by ascending number: O1 to O5.
#[derive(Clone, Copy, Debug, PartialEq, Eq)]
pub enum OpbFaultKind {
    /// O1: not a token of the profile.
    BadToken,
    /// O2: a number, or a sum of a statement, that is past the range.
    NumberPast,
    /// O3: a literal right behind a literal.
    Product,
    /// O4: the text ends inside a statement.
    NoEnd,
    /// O5: a token in a place where it may not stand.
    BadStatement,
}

impl OpbFaultKind {
    /// The number behind the O, from 1 to 5.
    pub fn number(&self) -> u8
        ensures number { result ≡ number_of_kind self.now }
        ensures least { 1 ≤ result }
        ensures most { result ≤ 5 }
    {
        match self {
            OpbFaultKind::BadToken => 1,
            OpbFaultKind::NumberPast => 2,
            OpbFaultKind::Product => 3,
            OpbFaultKind::NoEnd => 4,
            OpbFaultKind::BadStatement => 5,
        }
    }

    /// The one of two kinds with the lower number.
    pub fn lesser(self, other: OpbFaultKind) -> OpbFaultKind
        ensures { result ≡ lesser self other }
    {
        if self.number() <= other.number() {
            self
        } else {
            other
        }
    }
}
