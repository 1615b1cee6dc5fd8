//! Keys of rows and columns.

ghost use Rattle.std.specs.Prelude.{◌≡◌, ◌≢◌, ◌%◌, ◌^◌, true};
ghost use Rattle.std.specs.List.{All};
ghost use Rattle.fractions.specs.Number.{zero_ℚ};
ghost use Rattle.fractions.specs.Lowest.{over_of, under_of};
ghost use Rattle.fractions.specs.Division.{◌/ℚ◌};
ghost use Rattle.problem_model.specs.Matrices.{live_only};
ghost use Rattle.problem_model.specs.declared.part.Part.TheVariants as part;
ghost use Rattle.line_groups.specs.Keys.{key_at, key_of as key_by, mixed as mixed_with, sign_of as sign_as, with_ends as ends_in, with_ids as ids_in, with_number as number_in, with_parts as parts_in};
ghost use Rattle.line_groups.specs.Keys.{first_number as number_first, last_number as number_last};

use entry_lines::Lines;
use fractions::frac::Frac;
use fractions::whole::Whole;
use lp_model::Term;
use problem_model::Part;
use row_spans::exact::quotient;
use sparse_problem::Problem;

/// A key with one more word in it.
fn mixed(key: u64, word: u64) -> u64
    ensures { result ≡ mixed_with key word }
{
    key.wrapping_mul(0x9e37_79b9_7f4a_7c15).wrapping_add(word)
}

/// 1 for a number below 0, and else 0.
fn sign_of(number: Whole) -> u64
    ensures { result ≡ sign_as number }
{
    if number.is_negative() { 1 } else { 0 }
}

/// The last 64 bits.
fn low_word(number: u128) -> u64
    ensures { result ≡ number % 2 ^ 64 }
{
    (number % (1 << 64)) as u64
}

/// A key with the numerator and the denominator of a number in it.
fn with_parts(key: u64, number: &Frac) -> u64
    ensures { result ≡ parts_in key (over_of number.now) (under_of number.now) }
{
    let parts = number.parts();
    let signed = mixed(key, sign_of(parts.num));
    mixed(
        mixed(signed, low_word(parts.num.size())),
        low_word(parts.den),
    )
}

/// A key with a quotient in it. Of all that have no room the same is in it.
fn with_quotient(key: u64, number: &Frac, divisor: &Frac) -> u64
    requires { divisor.now ≢ zero_ℚ }
    ensures { result ≡ number_in key (number.now /ℚ divisor.now) }
{
    match quotient(number, divisor) {
        Ok(made) => with_parts(key, &made),
        Err(_) => mixed(key, 0),
    }
}

/// A key with the ids in it of the live lines that terms name.
fn with_ids(others: &Lines, key: u64, terms: &[Term]) -> u64
    ensures { result ≡ ids_in key (live_only others.now terms.now) }
{
    let mut made = key;
    let mut rest = terms;
    while let [term, after @ ..] = rest {
        if others.is_live(term.id) {
            made = mixed(made, u64::from(term.id));
        }
        rest = after;
    }
    made
}

/// The number of the first term that names a line that is live, if there is one.
fn first_number(others: &Lines, terms: &[Term]) -> Option<Frac>
    ensures { result ≡ number_first (live_only others.now terms.now) }
{
    let mut rest = terms;
    while let [term, after @ ..] = rest {
        if others.is_live(term.id) {
            return Some(term.value);
        }
        rest = after;
    }
    None
}

/// The number of the last one.
#[tactic(auto, using(crate::proofs::KeyLaws::last_begun))]
fn last_number(others: &Lines, terms: &[Term]) -> Option<Frac>
    ensures { result ≡ number_last (live_only others.now terms.now) }
{
    let mut last = None;
    let mut rest = terms;
    while let [term, after @ ..] = rest {
        if others.is_live(term.id) {
            last = Some(term.value);
        }
        rest = after;
    }
    last
}

/// A key with a cost and a last number in it, both over the first one.
fn with_ends(key: u64, first: &Frac, last: &Frac, cost: &Frac) -> u64
    requires { first.now ≢ zero_ℚ }
    ensures { result ≡ ends_in key first.now last.now cost.now }
{
    with_quotient(with_quotient(key, cost, first), last, first)
}

/// The key of a line with these terms and this cost, or none where no term names a line that is live.
fn key_of(others: &Lines, terms: &[Term], cost: &Frac) -> Option<u64>
    requires { All (λ t. t.value ≢ zero_ℚ) (live_only others.now terms.now) }
    ensures { result ≡ key_by cost.now (live_only others.now terms.now) }
{
    let Some(first) = first_number(others, terms) else {
        return None;
    };
    let Some(last) = last_number(others, terms) else {
        return None;
    };
    Some(with_ends(with_ids(others, 0, terms), &first, &last, cost))
}

/// A key with the ids of these terms in it.
fn with_all_ids(key: u64, terms: &[Term]) -> u64
    ensures { result ≡ ids_in key terms.now }
{
    let mut made = key;
    let mut rest = terms;
    while let [term, after @ ..] = rest {
        made = mixed(made, u64::from(term.id));
        rest = after;
    }
    made
}

/// The number of the last of some terms, if there is one.
#[tactic(auto, using(crate::proofs::KeyLaws::last_begun))]
fn last_of_all(terms: &[Term]) -> Option<Frac>
    ensures { result ≡ number_last terms.now }
{
    let mut last = None;
    let mut rest = terms;
    while let [term, after @ ..] = rest {
        last = Some(term.value);
        rest = after;
    }
    last
}

/// The key of a line with these terms, all of which name a line that is live, and this cost, or none where there is no term.
fn key_of_all(terms: &[Term], cost: &Frac) -> Option<u64>
    requires { All (λ t. t.value ≢ zero_ℚ) terms.now }
    ensures { result ≡ key_by cost.now terms.now }
{
    let [first, ..] = terms else {
        return None;
    };
    let Some(last) = last_of_all(terms) else {
        return None;
    };
    Some(with_ends(with_all_ids(0, terms), &first.value, &last, cost))
}

/// The key of a row, if it is live and has an entry.
fn key_of_row(problem: &Problem, row: u32) -> Option<u64>
    ensures { result ≡ key_at problem.now (part.Row row) }
{
    problem.is_sparse();
    if !problem.is_row_live(row) {
        return None;
    }
    if let Some(terms) = problem.whole_row(row) {
        return key_of_all(terms, &Frac::zero());
    }
    let terms = problem.row_line(row).entries.as_slice();
    key_of(&problem.columns(), terms, &Frac::zero())
}

/// The key of a column, if it is live and has an entry.
fn key_of_column(problem: &Problem, column: u32) -> Option<u64>
    ensures { result ≡ key_at problem.now (part.Col column) }
{
    problem.is_sparse();
    if !problem.is_column_live(column) {
        return None;
    }
    if let Some(terms) = problem.whole_column(column) {
        return key_of_all(terms, &problem.cost(column));
    }
    let terms = problem.column_line(column).entries.as_slice();
    key_of(&problem.rows(), terms, &problem.cost(column))
}

/// The key of the row or the column of a part, if it is live and has an entry. Sides and bounds have none.
pub fn key_of_part(problem: &Problem, part: Part) -> Option<u64>
    ensures { result ≡ key_at problem.now part }
{
    match part {
        Part::Row(i) => key_of_row(problem, i),
        Part::Col(j) => key_of_column(problem, j),
        Part::Sides(_) | Part::Bounds(_) => None,
    }
}
