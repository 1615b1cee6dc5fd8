//! The lines of a solution.

ghost use Rattle.std.specs.Prelude.{◌≡◌, map, true, false, IfOk, MatchOption};
ghost use Rattle.point_text.specs.SolutionLines.{line_with, line_of, text_line};
ghost use Rattle.point_text.specs.PairText.{starts_duals, is_duals_line};

use mps_cards::fields::split_fields;
use std::alloc::AllocError;

/// What a line of a solution says.
pub enum SolutionLine<'a> {
    /// Nothing that counts: a blank line, or the objective's value.
    Silent,
    /// A number by a name.
    Gives { name: &'a [u8], number: &'a [u8] },
    /// It has not two fields.
    Odd,
}

/// What a line with these fields says.
fn line_with<'a>(fields: &[&'a [u8]]) -> SolutionLine<'a>
    ensures { text_line result ≡ line_with (map (λ s. s.now) fields.now) }
{
    match fields {
        [] => SolutionLine::Silent,
        [name, number] => {
            if *name == b"=obj=".as_slice() {
                SolutionLine::Silent
            } else {
                SolutionLine::Gives { name, number }
            }
        }
        _ => SolutionLine::Odd,
    }
}

/// What a line says. Its fields come into the place of what `fields` held. Fails where memory runs
/// out.
pub fn split_line<'a>(
    fields: &mut Vec<&'a [u8]>,
    line: &'a [u8],
) -> Result<SolutionLine<'a>, AllocError>
    ensures { IfOk result (λ said. text_line said ≡ line_of line.now) }
{
    split_fields(fields, line)?;
    Ok(line_with(fields.as_slice()))
}

/// Whether a line with these fields starts the duals.
fn starts_duals(fields: &[&[u8]]) -> bool
    ensures { result ≡ starts_duals (map (λ s. s.now) fields.now) }
{
    match fields {
        [word] => *word == b"=duals=".as_slice(),
        _ => false,
    }
}

/// What a line says, none where it starts the duals. Its fields come into the place of what
/// `fields` held. Fails where memory runs out.
pub fn split_pair_line<'a>(
    fields: &mut Vec<&'a [u8]>,
    line: &'a [u8],
) -> Result<Option<SolutionLine<'a>>, AllocError>
    ensures { IfOk result (λ said. MatchOption said (is_duals_line line.now ≡ true) (λ other. (is_duals_line line.now ≡ false) × (text_line other ≡ line_of line.now))) }
{
    split_fields(fields, line)?;
    if starts_duals(fields.as_slice()) {
        return Ok(None);
    }
    Ok(Some(line_with(fields.as_slice())))
}
