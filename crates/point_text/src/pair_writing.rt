//! The writing of a solution with duals.

ghost use Rattle.std.specs.Prelude.{◌≡◌, ◌++◌, length, map, IfOk, IfSome, OnOk};
ghost use Rattle.point_text.specs.SolutionText.{solution_text_by};
ghost use Rattle.point_text.specs.PairText.{duals_line, pair_text, pair_text_by};

use crate::pairs::PairOf;
use crate::writing::{push_line, write_values};
use exact_texts::Textual;
use lp_model::{Labels, Pair};
use std::alloc::{AllocError, Global};

/// Appends the line of the duals, and each row with its dual.
fn push_duals<T: Textual, L: Labels>(
    alloc: Global,
    out: &mut Vec<u8>,
    labels: &L,
    duals: &[T],
) -> Result<(), AllocError>
    requires { length duals.now ≡ length (L.row_names labels.now) }
    ensures { OnOk result (out.new.items ≡ out.old.items ++ (duals_line ++ solution_text_by T.texts.writing (L.row_names labels.now) (map T.number duals.now))) }
{
    out.extend_from_slice(b"=duals=\n")?;
    for id in 0..duals.len() {
        push_line(alloc, out, labels.row_name(id).as_bytes(), &duals[id])?;
    }
    Ok(())
}

/// The text of a point with its duals, if there are any: for each column, by id, a line with its
/// name, a space and its value; then a line `=duals=`, and the same for each row with its dual.
///
/// # Errors
/// Where memory is short.
pub fn write_pair_of<T: Textual, L: Labels>(
    alloc: Global,
    labels: &L,
    pair: &PairOf<T>,
) -> Result<Vec<u8>, AllocError>
    requires point { length pair.now.point ≡ length (L.column_names labels.now) }
    requires duals { IfSome pair.now.duals (λ duals. length duals ≡ length (L.row_names labels.now)) }
    ensures { IfOk result (λ text. text.items ≡ pair_text_by T.texts.writing (L.column_names labels.now) (L.row_names labels.now) pair.now.point pair.now.duals) }
{
    let mut out = write_values(alloc, labels, pair.point.as_slice())?;
    if let Some(duals) = &pair.duals {
        push_duals(alloc, &mut out, labels, duals.as_slice())?;
    }
    Ok(out)
}

/// The text of a point with its duals, if there are any: for each column, by id, a line with its
/// name, a space and its value; then a line `=duals=`, and the same for each row with its dual.
///
/// # Errors
/// Where memory is short.
pub fn write_pair<L: Labels>(alloc: Global, labels: &L, pair: &Pair) -> Result<Vec<u8>, AllocError>
    requires point { length pair.now.point ≡ length (L.column_names labels.now) }
    requires duals { IfSome pair.now.duals (λ duals. length duals ≡ length (L.row_names labels.now)) }
    ensures { IfOk result (λ text. text.items ≡ pair_text (L.column_names labels.now) (L.row_names labels.now) pair.now.point pair.now.duals) }
{
    let mut out = write_values(alloc, labels, pair.point.as_slice())?;
    if let Some(duals) = &pair.duals {
        push_duals(alloc, &mut out, labels, duals.as_slice())?;
    }
    Ok(out)
}
