//! How far a text has come.

ghost use Rattle.std.specs.Prelude.{◌≡◌};
ghost use Rattle.mps_profile.specs.Items.{start};
ghost use Rattle.mps_profile.specs.Reading.{is_end};

use crate::sections::Section;
use lp_model::Sense;

/// What OBJSENSE has said.
#[derive(Clone, Copy, PartialEq, Eq)]
pub enum Told {
    /// There was no OBJSENSE.
    Nothing,
    /// OBJSENSE has no word on its line, and its card is to come.
    Awaited,
    /// The sense is known.
    Sense(Sense),
}

/// How far a text has come: its last section, and what stands above ROWS.
#[derive(Clone, Copy, PartialEq, Eq)]
pub struct Progress {
    pub section: Option<Section>,
    pub named: bool,
    pub sense: Told,
}

impl Progress {
    /// How far a text has come before its first line.
    pub fn start() -> Self
        ensures { result ≡ start }
    {
        Progress {
            section: None,
            named: false,
            sense: Told::Nothing,
        }
    }

    /// Whether ENDATA was read.
    pub fn is_end(&self) -> bool
        ensures { result ≡ is_end self.now.section }
    {
        matches!(self.section, Some(Section::Endata))
    }
}
