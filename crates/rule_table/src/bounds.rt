//! The bounds that are read beside a row.

ghost use Rattle.std.specs.Prelude.{◌≡◌, ◌++◌, ◌∷◌, [], OnOk};
ghost use Rattle.problem_model.specs.declared.part.Part.TheVariants as part;
ghost use Rattle.problem_model.specs.Matrices.{live_only};
ghost use Rattle.problem_model.specs.Parts.{contents_of};
ghost use Rattle.rule_words.specs.Reading.{bounds_of, terms_in};

use lp_model::Term;
use problem_model::Part;
use sparse_problem::Problem;
use std::alloc::AllocError;

/// Adds the bounds of the live columns of terms.
fn add_bounds_of(problem: &Problem, terms: &[Term], parts: &mut Vec<Part>) -> Result<(), AllocError>
    ensures { OnOk result (parts.new.items ≡ parts.old.items ++ bounds_of (live_only problem.now.matrix.columns terms.now)) }
{
    let mut rest = terms;
    while let [term, after @ ..] = rest {
        if problem.is_column_live(term.id) {
            parts.push(Part::Bounds(term.id))?;
        }
        rest = after;
    }
    Ok(())
}

/// Adds the bounds of the columns of a row. None if it isn't live.
pub fn add_bounds_of_row(
    problem: &Problem,
    row: u32,
    parts: &mut Vec<Part>,
) -> Result<(), AllocError>
    ensures { OnOk result (parts.new.items ≡ parts.old.items ++ bounds_of (terms_in (contents_of problem.now (part.Row row)))) }
{
    if problem.is_row_live(row) {
        let entries = problem.row_line(row).entries.as_slice();
        parts.reserve(entries.len())?;
        add_bounds_of(problem, entries, parts)?;
    }
    Ok(())
}
