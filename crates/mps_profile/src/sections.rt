//! Sections, and the words of OBJSENSE.

ghost use Rattle.std.specs.Prelude.{◌≡◌};
ghost use Rattle.std.specs.List.{list_any};
ghost use Rattle.std.specs.Str.{bytes_eq};
ghost use Rattle.mps_profile.specs.Words.{is_refused, section_named, sense_named};

use lp_model::Sense;

/// The sections that are read.
#[derive(Clone, Copy, PartialEq, Eq)]
pub enum Section {
    Name,
    Objsense,
    Rows,
    Columns,
    Rhs,
    Ranges,
    Bounds,
    Endata,
}

/// The section that a word names.
pub fn section_named(word: &[u8]) -> Option<Section>
    ensures { result ≡ section_named word.now }
{
    if word == b"NAME".as_slice() {
        Some(Section::Name)
    } else if word == b"OBJSENSE".as_slice() {
        Some(Section::Objsense)
    } else if word == b"ROWS".as_slice() {
        Some(Section::Rows)
    } else if word == b"COLUMNS".as_slice() {
        Some(Section::Columns)
    } else if word == b"RHS".as_slice() {
        Some(Section::Rhs)
    } else if word == b"RANGES".as_slice() {
        Some(Section::Ranges)
    } else if word == b"BOUNDS".as_slice() {
        Some(Section::Bounds)
    } else if word == b"ENDATA".as_slice() {
        Some(Section::Endata)
    } else {
        None
    }
}

/// The sections of other profiles, which are refused by name.
const REFUSED: [&[u8]; 11] = [
    b"QUADOBJ",
    b"QMATRIX",
    b"QCMATRIX",
    b"QSECTION",
    b"CSECTION",
    b"SOS",
    b"INDICATORS",
    b"LAZYCONS",
    b"USERCUTS",
    b"BRANCH",
    b"OBJNAME",
];

/// Whether a word is among others.
fn is_among(word: &[u8], words: &[&[u8]]) -> bool
    ensures { result ≡ list_any (λ other. bytes_eq word.now other.now) words.now }
{
    words.iter().any(|other| word == *other)
}

/// Whether a word names a section that is known and not taken.
pub fn is_refused(word: &[u8]) -> bool
    ensures { result ≡ is_refused word.now }
{
    is_among(word, &REFUSED)
}

/// The sense that a word of OBJSENSE names.
pub fn sense_named(word: &[u8]) -> Option<Sense>
    ensures { result ≡ sense_named word.now }
{
    if word == b"MIN".as_slice() || word == b"MINIMIZE".as_slice() {
        Some(Sense::Min)
    } else if word == b"MAX".as_slice() || word == b"MAXIMIZE".as_slice() {
        Some(Sense::Max)
    } else {
        None
    }
}
