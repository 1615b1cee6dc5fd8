//! The form of the ends of a row or a column.

ghost use Rattle.std.specs.Prelude.{◌≡◌};
ghost use Rattle.problem_model.specs.declared.part.Part.TheVariants as part;
ghost use Rattle.problem_model.specs.Parts.{contents_of};
ghost use Rattle.dual_laws.specs.Forms.{form_of as form_held};

use dual_laws::form::Form;
use lp_model::ends::{apart, in_order, place};
use problem_model::Part;
use sparse_problem::Problem;

/// The form of a row's sides.
fn form_of_sides(problem: &Problem, row: u32) -> Form
    ensures { result ≡ form_held (contents_of problem.now (part.Sides row)) }
{
    if !problem.is_row_live(row) {
        return Form::NoEnds;
    }
    let sides = problem.sides(row);
    Form::Sides {
        no_lower: sides.lower.is_none(),
        no_upper: sides.upper.is_none(),
        in_order: in_order(&sides.lower, &sides.upper),
    }
}

/// The form of a column's bounds.
fn form_of_bounds(problem: &Problem, column: u32) -> Form
    ensures { result ≡ form_held (contents_of problem.now (part.Bounds column)) }
{
    if !problem.is_column_live(column) {
        return Form::NoEnds;
    }
    let bounds = problem.bounds(column);
    if bounds.semi {
        return Form::NoEnds;
    }
    Form::Bounds {
        no_lower: bounds.lower.is_none(),
        no_upper: bounds.upper.is_none(),
        in_order: in_order(&bounds.lower, &bounds.upper),
        apart: apart(&bounds.lower, &bounds.upper),
        lower_holds: place(&bounds.lower, bounds.whole),
        upper_holds: place(&bounds.upper, bounds.whole),
        whole: bounds.whole,
    }
}

/// The form of the ends that a part of a problem holds.
pub fn form_of(problem: &Problem, part: Part) -> Form
    ensures { result ≡ form_held (contents_of problem.now part) }
{
    match part {
        Part::Row(_) | Part::Col(_) => Form::NoEnds,
        Part::Sides(row) => form_of_sides(problem, row),
        Part::Bounds(column) => form_of_bounds(problem, column),
    }
}
