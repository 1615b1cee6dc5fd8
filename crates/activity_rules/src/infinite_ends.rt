//! Whether a side of a row can tell of a bound, by its infinite ends alone: where two are infinite, so is each rest.

ghost use Rattle.std.specs.Prelude.{◌≡◌, ◌∷◌, [], true, IfSome};
ghost use Rattle.lp_theory.specs.Activities.{least_term};
ghost use Rattle.problem_model.specs.Problems.{column_at, row_at, sides_at};
ghost use Rattle.row_spans.specs.RowSums.{all_finite};
ghost use Rattle.row_spans.specs.Spans.{end_at, ends_at, span_of, spans_among, spans_of};
ghost use Rattle.activity_rules.specs.Tightened.{at_most_one_infinite, may_tell as side_may_tell, may_tighten as row_may_tighten};

use fractions::ext::Ext;
use fractions::frac::Frac;
use lp_model::Term;
use row_spans::Extreme;
use sparse_problem::Problem;

/// Whether the least product with a number is finite, for numbers from a first end to a second one.
#[tactic(auto, unfolding(lp_theory::specs::Activities::least_term))]
fn is_least_finite(value: &Frac, first: &Ext, second: &Ext) -> bool
    ensures { result ≡ all_finite (least_term value.now first.now second.now ∷ []) }
{
    if value.is_positive() {
        !first.is_none()
    } else {
        !value.is_negative() || !second.is_none()
    }
}

/// Whether what a term gives is finite.
fn is_finite(problem: &Problem, extreme: Extreme, term: &Term) -> bool
    requires { (column_at problem.now term.now.id).live ≡ true }
    ensures { result ≡ all_finite (end_at extreme (span_of problem.now term.now) ∷ []) }
{
    let bounds = problem.bounds(term.id);
    match extreme {
        Extreme::Least => {
            is_least_finite(&term.value, &bounds.reach_lower(), &bounds.reach_upper())
        }
        Extreme::Greatest => {
            is_least_finite(&term.value, &bounds.reach_upper(), &bounds.reach_lower())
        }
    }
}

/// Whether what each term gives is finite.
fn are_finite(problem: &Problem, extreme: Extreme, terms: &[Term]) -> bool
    ensures { result ≡ all_finite (ends_at extreme (spans_among problem.now terms.now)) }
{
    let mut rest = terms;
    while let [term, after @ ..] = rest {
        if problem.is_column_live(term.id) && !is_finite(problem, extreme, term) {
            return false;
        }
        rest = after;
    }
    true
}

/// Whether what all terms but one give is finite.
fn are_finite_but_one(problem: &Problem, extreme: Extreme, terms: &[Term]) -> bool
    ensures { result ≡ at_most_one_infinite (ends_at extreme (spans_among problem.now terms.now)) }
{
    let mut rest = terms;
    while let [term, after @ ..] = rest {
        if problem.is_column_live(term.id) && !is_finite(problem, extreme, term) {
            return are_finite(problem, extreme, after);
        }
        rest = after;
    }
    true
}

/// Whether what all terms but one of a row give is finite, if sums are kept of it.
fn told_but_one(problem: &Problem, row: u32, extreme: Extreme) -> Option<bool>
    ensures { IfSome result (λ b. b ≡ at_most_one_infinite (ends_at extreme (spans_of problem.now row))) }
{
    let kept = problem.kept_sums(row)?;
    match extreme {
        Extreme::Least => Some(kept.least.infinite < 2),
        Extreme::Greatest => Some(kept.greatest.infinite < 2),
    }
}

/// Whether what all terms but one of a row give is finite.
fn is_finite_but_one(problem: &Problem, row: u32, extreme: Extreme) -> bool
    requires { (row_at problem.now row).live ≡ true }
    ensures { result ≡ at_most_one_infinite (ends_at extreme (spans_of problem.now row)) }
{
    match told_but_one(problem, row, extreme) {
        Some(told) => told,
        None => {
            let line = problem.row_line(row);
            are_finite_but_one(problem, extreme, line.entries.as_slice())
        }
    }
}

/// Whether a side of a row is finite, and a rest that goes with it may be.
fn may_tell(problem: &Problem, row: u32, extreme: Extreme, side: &Ext) -> bool
    requires { (row_at problem.now row).live ≡ true }
    ensures { result ≡ side_may_tell extreme side.now (spans_of problem.now row) }
{
    match side.number() {
        None => false,
        Some(_) => is_finite_but_one(problem, row, extreme),
    }
}

/// Whether this holds of the lower side of a row, or of the upper one.
pub fn may_tighten(problem: &Problem, row: u32) -> bool
    requires { (row_at problem.now row).live ≡ true }
    ensures { result ≡ row_may_tighten (sides_at problem.now row) (spans_of problem.now row) }
{
    let sides = problem.sides(row);
    may_tell(problem, row, Extreme::Greatest, &sides.lower)
        || may_tell(problem, row, Extreme::Least, &sides.upper)
}
