//! The lines of a ray.

ghost use Rattle.std.specs.Prelude.{◌≡◌, map, IfOk};
ghost use Rattle.ray_text.specs.RayLines.{line_with, line_of, line_of_four, text_giving, text_line};

use mps_cards::fields::split_fields;
use std::alloc::AllocError;

/// A name, and the two numbers that a line gives to it: those of its lower and of its upper end.
#[derive(Clone, Copy)]
pub struct NamedTexts<'a> {
    pub name: &'a [u8],
    pub lower: &'a [u8],
    pub upper: &'a [u8],
}

/// What a line of a ray says.
#[derive(Clone, Copy)]
pub enum RayLine<'a> {
    /// Nothing: a blank line.
    Silent,
    /// That a ray starts.
    Opens,
    /// Numbers by the name of a row.
    OfRow(NamedTexts<'a>),
    /// Numbers by the name of a column.
    OfColumn(NamedTexts<'a>),
    /// It is none of these.
    Odd,
}

/// What a line of four fields says: the first field says what has the name.
fn line_of_four<'a>(word: &[u8], giving: NamedTexts<'a>) -> RayLine<'a>
    ensures { text_line result ≡ line_of_four word.now (text_giving giving.entry) }
{
    if word == b"row".as_slice() {
        RayLine::OfRow(giving)
    } else if word == b"column".as_slice() {
        RayLine::OfColumn(giving)
    } else {
        RayLine::Odd
    }
}

/// What a line with these fields says.
fn line_with<'a>(fields: &[&'a [u8]]) -> RayLine<'a>
    ensures { text_line result ≡ line_with (map (λ s. s.now) fields.now) }
{
    match fields {
        [] => RayLine::Silent,
        [word] => {
            if *word == b"=ray=".as_slice() {
                RayLine::Opens
            } else {
                RayLine::Odd
            }
        }
        [word, name, lower, upper] => line_of_four(word, NamedTexts { name, lower, upper }),
        _ => RayLine::Odd,
    }
}

/// What a line says. Its fields come into the place of what `fields` held. Fails where memory runs out.
pub fn split_line<'a>(fields: &mut Vec<&'a [u8]>, line: &'a [u8]) -> Result<RayLine<'a>, AllocError>
    ensures { IfOk result (λ said. text_line said ≡ line_of line.now) }
{
    split_fields(fields, line)?;
    Ok(line_with(fields.as_slice()))
}
