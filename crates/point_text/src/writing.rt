//! The writing of a solution.

ghost use Rattle.std.specs.Prelude.{◌≡◌, ◌++◌, length, map, IfOk, OnOk};
ghost use Rattle.point_text.specs.SolutionText.{value_line_by, solution_text_by};

use exact_texts::Textual;
use lp_model::Labels;
use std::alloc::{AllocError, Global};

/// Appends a name and its value.
pub fn push_line<T: Textual>(
    alloc: Global,
    out: &mut Vec<u8>,
    name: &[u8],
    value: &T,
) -> Result<(), AllocError>
    ensures { OnOk result (out.new.items ≡ out.old.items ++ value_line_by T.texts.writing name.now (T.number value.now)) }
{
    out.extend_from_slice(name)?;
    out.push(b' ')?;
    value.push(alloc, out)?;
    out.extend_from_slice(b"\n")
}

/// The text of a point: for each column, by id, a line with its name, a space and its value.
///
/// # Errors
/// Where memory is short.
pub fn write_values<T: Textual, L: Labels>(
    alloc: Global,
    labels: &L,
    point: &[T],
) -> Result<Vec<u8>, AllocError>
    requires { length point.now ≡ length (L.column_names labels.now) }
    ensures { IfOk result (λ text. text.items ≡ solution_text_by T.texts.writing (L.column_names labels.now) (map T.number point.now)) }
{
    let mut out = Vec::new(alloc);
    for id in 0..point.len() {
        push_line(
            alloc,
            &mut out,
            labels.column_name(id).as_bytes(),
            &point[id],
        )?;
    }
    Ok(out)
}
