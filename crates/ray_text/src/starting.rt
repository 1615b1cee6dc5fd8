//! Whether a text is one of a ray.

ghost use Rattle.std.specs.Prelude.{◌≡◌, ◌<◌, ◌∷◌, [], length, position, MatchOption};
ghost use Rattle.std.specs.List.{position_or_len};
ghost use Rattle.mps_profile.specs.Fields.{is_blank, fields_of};
ghost use Rattle.ray_text.specs.RayLines.{line_of, is_ray_text};
ghost use Rattle.ray_text.specs.Starting.{StartsAs};

use mps_cards::fields::is_blank;
use text_lines::first_line;

/// Where the first blank stands.
fn blank(text: &[u8]) -> Option<usize>
    ensures { result ≡ position is_blank text.now }
{
    text.iter().position(|b| is_blank(*b))
}

/// The field at the front of a text that begins with no blank, and what follows it.
fn cut_field(text: &[u8]) -> (&[u8], &[u8])
    requires { 0 < position_or_len is_blank text.now }
    ensures { fields_of text.now ≡ result.0.now ∷ fields_of result.1.now }
{
    match blank(text) {
        Some(end) => (&text[..end], &text[end + 1..]),
        None => (text, &text[text.len()..]),
    }
}

/// The first field of a line and what follows it; none where the line is blank.
fn first_field(line: &[u8]) -> Option<(&[u8], &[u8])>
    ensures { MatchOption result (fields_of line.now ≡ []) (λ parts. fields_of line.now ≡ parts.0.now ∷ fields_of parts.1.now) }
{
    let mut rest = line;
    while let [first, more @ ..] = rest {
        if !is_blank(*first) {
            return Some(cut_field(rest));
        }
        rest = more;
    }
    None
}

/// Whether a line starts a ray; none where it is blank.
fn starts_ray(line: &[u8]) -> Option<bool>
    ensures { StartsAs (line_of line.now) result }
{
    let (word, after) = first_field(line)?;
    Some(word == b"=ray=".as_slice() && first_field(after).is_none())
}

/// Whether a text is one of a ray: its first line that is not blank is `=ray=` alone. It takes no memory.
pub fn is_ray(bytes: &[u8]) -> bool
    ensures { result ≡ is_ray_text bytes.now }
{
    let mut rest = bytes;
    while !rest.is_empty() {
        let (line, after) = first_line(rest);
        if let Some(starts) = starts_ray(line) {
            return starts;
        }
        rest = after;
    }
    false
}
