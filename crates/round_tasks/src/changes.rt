//! The parts of a problem that have changed since the numbers of their changes were kept.

ghost use Rattle.std.specs.Prelude.{◌≡◌, false, IfOk, OnOk};
ghost use Rattle.problem_model.specs.Parts.{changes_of};
ghost use Rattle.problem_model.specs.declared.part.Part.TheVariants as part;
ghost use Rattle.round_marks.specs.Stamping.{stamp_at};
ghost use Rattle.round_tasks.specs.Changes.{IsAsLong, Notices, NoticesBelow, NoticesAll};

use presolve_model::Part;
use round_marks::stamps::Stamps;
use sparse_problem::Problem;
use std::alloc::{AllocError, Global};

/// Whether a part has changed since.
fn has_changed(before: &Stamps, after: &Problem, part: Part) -> bool
    ensures { result ≡ false → changes_of after.now part ≡ stamp_at before.now part }
{
    !before.stand_for(after, &[part])
}

/// Adds a part, if it has changed.
fn add_changed(
    before: &Stamps,
    after: &Problem,
    part: Part,
    parts: &mut Vec<Part>,
) -> Result<(), AllocError>
    ensures { OnOk result (Notices before.now after.now part parts.old.items parts.new.items) }
{
    if has_changed(before, after, part) {
        parts.push(part)?;
    }
    Ok(())
}

/// Adds the parts of rows that have changed.
fn add_changed_rows(
    before: &Stamps,
    after: &Problem,
    parts: &mut Vec<Part>,
) -> Result<(), AllocError>
    ensures { OnOk result (NoticesBelow before.now after.now part.Row part.Sides after.now.matrix.rows parts.old.items parts.new.items) }
{
    for row in 0..after.row_count() as u32 {
        add_changed(before, after, Part::Row(row), parts)?;
        add_changed(before, after, Part::Sides(row), parts)?;
    }
    Ok(())
}

/// Adds the parts of columns that have changed.
fn add_changed_columns(
    before: &Stamps,
    after: &Problem,
    parts: &mut Vec<Part>,
) -> Result<(), AllocError>
    ensures { OnOk result (NoticesBelow before.now after.now part.Col part.Bounds after.now.matrix.columns parts.old.items parts.new.items) }
{
    for column in 0..after.column_count() as u32 {
        add_changed(before, after, Part::Col(column), parts)?;
        add_changed(before, after, Part::Bounds(column), parts)?;
    }
    Ok(())
}

/// The parts that have changed since these numbers of changes were kept.
///
/// # Errors
/// Memory ran out.
pub fn changed_parts(
    alloc: Global,
    before: &Stamps,
    after: &Problem,
) -> Result<Vec<Part>, AllocError>
    requires { IsAsLong before.now after.now }
    ensures { IfOk result (λ parts. NoticesAll before.now after.now parts.items) }
{
    after.is_sparse();
    let mut parts = Vec::new(alloc);
    add_changed_rows(before, after, &mut parts)?;
    add_changed_columns(before, after, &mut parts)?;
    Ok(parts)
}
