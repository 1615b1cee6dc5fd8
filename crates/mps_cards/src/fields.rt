//! The fields of a line of the free format.

ghost use Rattle.std.specs.Prelude.{◌≡◌, ◌<◌, ◌∷◌, length, map, position, IfOk};
ghost use Rattle.std.specs.List.{position_or_len};
ghost use Rattle.mps_profile.specs.Fields.{is_blank, fields_of};

use std::alloc::AllocError;

/// Whether a byte separates fields.
pub fn is_blank(byte: u8) -> bool
    ensures { result ≡ is_blank byte }
{
    byte == b' ' || byte == b'\t'
}

/// Where the first blank stands.
fn blank(text: &[u8]) -> Option<usize>
    ensures { result ≡ position is_blank text.now }
{
    text.iter().position(|b| is_blank(*b))
}

/// The field at the front of a text that begins with no blank, and what follows it.
fn cut_field(text: &[u8]) -> (&[u8], &[u8])
    requires { 0 < position_or_len is_blank text.now }
    ensures fields { fields_of text.now ≡ result.0.now ∷ fields_of result.1.now }
    ensures shorter { length result.1.now < length text.now }
{
    match blank(text) {
        Some(end) => (&text[..end], &text[end + 1..]),
        None => (text, &text[text.len()..]),
    }
}

/// Puts the fields of a line into the place of what `fields` held. Fails where memory runs out.
pub fn split_fields<'a>(fields: &mut Vec<&'a [u8]>, line: &'a [u8]) -> Result<(), AllocError>
    ensures { IfOk result (λ done. map (λ s. s.now) fields.new.items ≡ fields_of line.now) }
{
    fields.clear();
    let mut rest = line;
    while let [first, more @ ..] = rest {
        if is_blank(*first) {
            rest = more;
        } else {
            let (field, after) = cut_field(rest);
            fields.push(field)?;
            rest = after;
        }
    }
    Ok(())
}
