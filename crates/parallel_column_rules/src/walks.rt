//! The entries of two columns, or of two rows, walked together. Nothing is copied: what is passed over is what names a deleted line. In what
//! follows `lines` are those that entries name: the rows where the entries are of columns, the columns where they are of rows.

ghost use Rattle.std.specs.Prelude.{◌≡◌, ◌≢◌, ◌&&◌, not, true};
ghost use Rattle.std.specs.List.{All};
ghost use Rattle.fractions.specs.Number.{zero_ℚ, ◌*ℚ◌};
ghost use Rattle.fractions.specs.Compare.{eq_ℚ};
ghost use Rattle.problem_model.specs.Matrices.{line_at, live_only};
ghost use Rattle.rule_words.specs.Entries.{has_none};
ghost use Rattle.rule_words.specs.Multiples.{are_times as times_are};
ghost use Rattle.parallel_column_rules.specs.Walks.{after_first, begin_alike as begins_alike, first_number as number_first, first_over as over_first, from_live as live_from};

use entry_lines::Lines;
use fractions::frac::Frac;
use lp_model::Term;
use row_spans::exact::{product, quotient};

/// The entries of a row or a column, those that name deleted lines among them.
pub fn entries_of<'a>(lines: &Lines<'a>, line: u32) -> &'a [Term]
    requires { (line_at lines.now line).live ≡ true }
    ensures { result.now ≡ (line_at lines.now line).entries }
{
    lines.live_line(line).entries.as_slice()
}

/// The entries from the first on that names a live line.
fn from_live<'a>(lines: &Lines, entries: &'a [Term]) -> &'a [Term]
    ensures { result.now ≡ live_from lines.now entries.now }
{
    let mut rest = entries;
    while let [term, after @ ..] = rest {
        if lines.is_live(term.id) {
            return rest;
        }
        rest = after;
    }
    rest
}

/// The entries after the first, from that on that names a live line.
fn next_live<'a>(lines: &Lines, entries: &'a [Term]) -> &'a [Term]
    ensures { result.now ≡ live_from lines.now (after_first entries.now) }
{
    match entries {
        [] => entries,
        [_, after @ ..] => from_live(lines, after),
    }
}

/// The number of the first entry that names a live line, if there is one.
fn first_number(lines: &Lines, entries: &[Term]) -> Option<Frac>
    ensures { result ≡ number_first (live_only lines.now entries.now) }
{
    match from_live(lines, entries) {
        [] => None,
        [term, ..] => Some(term.value),
    }
}

/// The number of the first entry that names a live line over that of other entries, if both have one and that has room.
#[tactic(auto, using(crate::proofs::EntryWalks::first_not_zero))]
pub fn first_over(lines: &Lines, entries: &[Term], others: &[Term]) -> Option<Frac>
    requires { All (λ t. t.value ≢ zero_ℚ) (live_only lines.now others.now) }
    ensures { result ≡ over_first (live_only lines.now entries.now) (live_only lines.now others.now) }
{
    let Some(number) = first_number(lines, entries) else {
        return None;
    };
    let Some(divisor) = first_number(lines, others) else {
        return None;
    };
    match quotient(&number, &divisor) {
        Ok(factor) => Some(factor),
        Err(_) => None,
    }
}

/// Whether either has an entry.
fn is_any_left(entries: &[Term], others: &[Term]) -> bool
    ensures { result ≡ not (has_none entries.now && has_none others.now) }
{
    match entries {
        [] => match others {
            [] => false,
            [_, ..] => true,
        },
        [_, ..] => true,
    }
}

/// Whether a number is a factor times another one. A product that has no room is no number that there is.
pub fn is_product(number: &Frac, factor: &Frac, other: &Frac) -> bool
    ensures { result ≡ eq_ℚ number.now (factor.now *ℚ other.now) }
{
    let _parts = number.parts();
    match product(factor, other) {
        Ok(made) => number.is_same(&made),
        Err(_) => false,
    }
}

/// Whether both begin with an entry that names one line, and that of the first is the factor times that of the second.
fn begin_alike(factor: &Frac, entries: &[Term], others: &[Term]) -> bool
    ensures { result ≡ begins_alike factor.now entries.now others.now }
{
    match entries {
        [] => false,
        [term, ..] => match others {
            [] => false,
            [other, ..] => term.id == other.id && is_product(&term.value, factor, &other.value),
        },
    }
}

/// Whether entries name the same live lines as others, and each one there is the factor times the other. It ends at the first line where
/// that isn't so.
pub fn are_times(lines: &Lines, factor: &Frac, entries: &[Term], others: &[Term]) -> bool
    ensures { result ≡ times_are factor.now (live_only lines.now entries.now) (live_only lines.now others.now) }
{
    let mut rest = from_live(lines, entries);
    let mut rest_of_others = from_live(lines, others);
    while is_any_left(rest, rest_of_others) {
        if !begin_alike(factor, rest, rest_of_others) {
            return false;
        }
        rest = next_live(lines, rest);
        rest_of_others = next_live(lines, rest_of_others);
    }
    true
}
