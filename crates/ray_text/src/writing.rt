//! The writing of a ray.

ghost use Rattle.std.specs.Prelude.{◌≡◌, ◌++◌, length, codes, IfOk, OnOk, if◌then◌else◌, [], ◌∷◌};
ghost use Rattle.lp_model.specs.Names.{names_of_rows, names_of_columns};
ghost use Rattle.number_texts.specs.Written.{written};
ghost use Rattle.lp_rays.specs.RayData.{IsSized};
ghost use Rattle.ray_text.specs.RayText.{are_zero, weight_line, weight_lines, ray_text};

use fractions::frac::Frac;
use lp_model::{ColumnDef, Program, RowDef};
use lp_rays::Ray;
use std::alloc::{AllocError, Global};

/// Appends a space and a number.
fn push_number(out: &mut Vec<u8>, number: &Frac) -> Result<(), AllocError>
    ensures { OnOk result (out.new.items ≡ out.old.items ++ 32 ∷ written number.now) }
{
    out.push(b' ')?;
    number_texts::push(out, number)
}

/// Appends a line.
fn push_line(
    out: &mut Vec<u8>,
    word: &[u8],
    name: &[u8],
    lower: &Frac,
    upper: &Frac,
) -> Result<(), AllocError>
    ensures { OnOk result (out.new.items ≡ out.old.items ++ weight_line word.now name.now lower.now upper.now) }
{
    out.extend_from_slice(word)?;
    out.push(b' ')?;
    out.extend_from_slice(name)?;
    push_number(out, lower)?;
    push_number(out, upper)?;
    out.extend_from_slice(b"\n")
}

/// Appends a line, unless both weights are 0.
fn push_weights(
    out: &mut Vec<u8>,
    word: &[u8],
    name: &[u8],
    lower: &Frac,
    upper: &Frac,
) -> Result<(), AllocError>
    ensures { OnOk result (out.new.items ≡ out.old.items ++ (if are_zero lower.now upper.now then [] else weight_line word.now name.now lower.now upper.now)) }
{
    if lower.is_zero() && upper.is_zero() {
        return Ok(());
    }
    push_line(out, word, name, lower, upper)
}

/// Appends the lines of the rows.
fn push_rows(
    out: &mut Vec<u8>,
    rows: &[RowDef],
    lower: &[Frac],
    upper: &[Frac],
) -> Result<(), AllocError>
    requires lower { length lower.now ≡ length rows.now }
    requires upper { length upper.now ≡ length rows.now }
    ensures { OnOk result (out.new.items ≡ out.old.items ++ weight_lines (codes "row") (names_of_rows rows.now) lower.now upper.now) }
{
    for id in 0..rows.len() {
        push_weights(
            out,
            b"row",
            rows[id].name.as_bytes(),
            &lower[id],
            &upper[id],
        )?;
    }
    Ok(())
}

/// Appends the lines of the columns.
fn push_columns(
    out: &mut Vec<u8>,
    columns: &[ColumnDef],
    lower: &[Frac],
    upper: &[Frac],
) -> Result<(), AllocError>
    requires lower { length lower.now ≡ length columns.now }
    requires upper { length upper.now ≡ length columns.now }
    ensures { OnOk result (out.new.items ≡ out.old.items ++ weight_lines (codes "column") (names_of_columns columns.now) lower.now upper.now) }
{
    for id in 0..columns.len() {
        push_weights(
            out,
            b"column",
            columns[id].name.as_bytes(),
            &lower[id],
            &upper[id],
        )?;
    }
    Ok(())
}

/// The text of a ray: a line `=ray=`, then for each row, by id, a line with the word `row`, its name and the weights of its lower and
/// its upper side, and for each column the same with the word `column` and the weights of its bounds. Lines of two zeros are left out.
///
/// # Errors
/// Where memory is short.
pub fn write_ray(alloc: Global, program: &Program, ray: &Ray) -> Result<Vec<u8>, AllocError>
    requires { IsSized (length program.now.rows) (length program.now.columns) ray.now }
    ensures { IfOk result (λ text. text.items ≡ ray_text (names_of_rows program.now.rows) (names_of_columns program.now.columns) ray.now) }
{
    let mut out = Vec::new(alloc);
    out.extend_from_slice(b"=ray=\n")?;
    push_rows(
        &mut out,
        program.rows(),
        ray.lower_sides(),
        ray.upper_sides(),
    )?;
    push_columns(
        &mut out,
        program.columns(),
        ray.lower_bounds(),
        ray.upper_bounds(),
    )?;
    Ok(out)
}
