//! The sides that are read beside a column.

ghost use Rattle.std.specs.Prelude.{◌≡◌, ◌++◌, OnOk};
ghost use Rattle.problem_model.specs.declared.part.Part.TheVariants as part;
ghost use Rattle.problem_model.specs.Parts.{contents_of};
ghost use Rattle.rule_words.specs.Reading.{sides_of, terms_in};

use crate::both_columns::add_sides_of;
use crate::directions::entries_if_live;
use problem_model::Part;
use sparse_problem::Problem;
use std::alloc::AllocError;

/// Adds the sides of the rows of a column, which K10 and V3 read. None if it isn't live.
///
/// # Errors
/// Memory ran out.
pub fn add_sides_of_column(
    problem: &Problem,
    column: u32,
    parts: &mut Vec<Part>,
) -> Result<(), AllocError>
    ensures { OnOk result (parts.new.items ≡ parts.old.items ++ sides_of (terms_in (contents_of problem.now (part.Col column)))) }
{
    add_sides_of(problem, entries_if_live(problem, column), parts)?;
    Ok(())
}
