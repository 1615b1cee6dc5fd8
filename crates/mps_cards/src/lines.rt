//! What kind of line a line is.

ghost use Rattle.std.specs.Prelude.{◌≡◌};
ghost use Rattle.std.specs.List.{list_all};
ghost use Rattle.text_lines.specs.Lines.{lines_of};
ghost use Rattle.mps_profile.specs.Fields.{is_blank};
ghost use Rattle.mps_profile.specs.Items.{line_of, has_card};
ghost use Rattle.mps_cards.specs.Texts.{kind_of};

use crate::fields::is_blank;
use text_lines::first_line;

/// What kind of line a line is.
#[derive(Clone, Copy, Debug, PartialEq, Eq)]
pub enum LineKind {
    /// A comment, or a line of blanks, which says nothing.
    Blank,
    /// A section's line.
    Heading,
    /// A card of the present section.
    Card,
}

/// Whether a line has nothing but blanks.
fn is_bare(line: &[u8]) -> bool
    ensures { result ≡ list_all is_blank line.now }
{
    line.iter().all(|b| is_blank(*b))
}

/// What kind of line a line is: a comment begins with a star, and a card with a blank.
pub fn line_kind(line: &[u8]) -> LineKind
    ensures { result ≡ kind_of (line_of line.now) }
{
    if is_bare(line) {
        return LineKind::Blank;
    }
    match line {
        [] | [b'*', ..] => LineKind::Blank,
        [first, ..] => {
            if is_blank(*first) {
                LineKind::Card
            } else {
                LineKind::Heading
            }
        }
    }
}

/// Whether the first line of a text that is not blank is a card.
pub fn has_card(text: &[u8]) -> bool
    ensures { result ≡ has_card (lines_of text.now) }
{
    let mut rest = text;
    while !rest.is_empty() {
        let (line, after) = first_line(rest);
        match line_kind(line) {
            LineKind::Blank => {}
            LineKind::Heading => return false,
            LineKind::Card => return true,
        }
        rest = after;
    }
    false
}
