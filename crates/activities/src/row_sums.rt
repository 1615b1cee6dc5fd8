//! The sums of one row, made in one pass.

ghost use Rattle.std.specs.Prelude.{◌≡◌, ◌<◌, ◌+◌, ◌++◌, false, length, take, drop, List, IfOk, IfSome, IsTrue, Ok, Some};
ghost use Rattle.fractions.specs.Number.{zero_ℚ};
ghost use Rattle.activities.specs.Kept.{IsKept};
ghost use Rattle.kept_sums.specs.CommonSums.{IsCommonSum};
ghost use Rattle.activities.specs.Prefixes.{sums_before as all_before};
ghost use Rattle.row_spans.specs.RowSums.{activity as activity_by, rest as rest_without, row_sum, sum_from as sum_on};
ghost use Rattle.row_spans.specs.Spans.{AreSpans, end_at, ends_at, span_at, spans_of as spans_with};
ghost use Rattle.kept_sums.specs.KeptSides.{IsQuiet};
ghost use Rattle.kept_sums.specs.KeptSums.{AreSumsOf};
ghost use Rattle.row_spans.specs.declared.span.Span.{Span as SpanValue};
ghost use Rattle.row_spans.specs.declared.span.Extreme.TheVariants as extreme_of;

use crate::prefixes::{continued_from, sums_before};
use crate::spans::spans_of;
use crate::sums::{all_finite, sum_from};
use fractions::Past;
use fractions::ext::Ext;
use fractions::frac::Frac;
use kept_sums::{
    CommonSum, KeptSums, QuietSides, common_sum, quiet_sides, told_activity, told_rest,
};
use row_spans::{Extreme, Span};
use sparse_problem::Problem;
use std::alloc::{AllocError, Global};
use std::marker::Model;

/// What is kept of a row.
#[derive(Drop)]
pub(crate) enum Kept {
    /// The sum of its terms over one denominator, which has room in whatever order it is made.
    Common(CommonSum),
    /// The sums before each of its terms.
    Before(Vec<Result<Frac, Past>>),
}

/// The entries of a row with the bounds of their columns, and what is kept of their sums. In a contract it is the entries.
#[derive(Drop)]
pub struct RowSums {
    spans: Vec<Span>,
    least: Kept,
    greatest: Kept,
}

impl Model for RowSums {
    ghost use Rattle.std.specs.Prelude.{List};
    ghost use Rattle.std.specs.Coded.{codes};
    ghost use Rattle.fractions.specs.Lowest.{number_code};
    ghost use Rattle.row_spans.specs.declared.span.Span.{Span};
    ghost use Rattle.activities.specs.Kept.{AreRowSums};

    ghost Value = { List Span };

    ghost coded = { Prim.hlevel (codes, number_code) };

    ghost view = { λ sums. sums.spans.items };

    ghost invariant = { λ sums. AreRowSums sums.spans.items sums.least sums.greatest };
}

/// The sums of entries that are made when they are asked for.
pub(crate) fn sums_of(alloc: Global, extreme: Extreme, spans: &[Span]) -> Result<Kept, AllocError>
    ensures { IfOk result (IsKept (ends_at extreme spans.now)) }
{
    match common_sum(extreme, spans) {
        Some(sum) => Ok(Kept::Common(sum)),
        None => Ok(Kept::Before(sums_before(alloc, extreme, spans)?)),
    }
}

/// The sums of both activities.
#[derive(Drop)]
struct Both {
    least: Kept,
    greatest: Kept,
}

/// Both, as they are kept.
fn both_kept(kept: &KeptSums) -> Both
    ensures { (ss : List SpanValue) → AreSumsOf ss kept.now → IsKept (ends_at extreme_of.Least ss) result.least × IsKept (ends_at extreme_of.Greatest ss) result.greatest }
{
    Both {
        least: Kept::Common(kept.least),
        greatest: Kept::Common(kept.greatest),
    }
}

/// Both, made of entries.
fn both_made(alloc: Global, spans: &[Span]) -> Result<Both, AllocError>
    ensures { IfOk result (λ both. IsKept (ends_at extreme_of.Least spans.now) both.least × IsKept (ends_at extreme_of.Greatest spans.now) both.greatest) }
{
    Ok(Both {
        least: sums_of(alloc, Extreme::Least, spans)?,
        greatest: sums_of(alloc, Extreme::Greatest, spans)?,
    })
}

/// Both sums of a row with these entries: those that are kept of it, if they are.
fn both_of(alloc: Global, problem: &Problem, row: u32, spans: &[Span]) -> Result<Both, AllocError>
    requires { spans.now ≡ spans_with problem.now row }
    ensures { IfOk result (λ both. IsKept (ends_at extreme_of.Least spans.now) both.least × IsKept (ends_at extreme_of.Greatest spans.now) both.greatest) }
{
    match problem.kept_sums(row) {
        Some(kept) => Ok(both_kept(&kept)),
        None => both_made(alloc, spans),
    }
}

/// The activity, term by term.
pub(crate) fn activity_by_terms(extreme: Extreme, spans: &[Span]) -> Result<Ext, Past>
    ensures { result ≡ activity_by extreme spans.now }
{
    if !all_finite(extreme, spans) {
        return Ok(Ext::none());
    }
    let sum = sum_from(Frac::zero(), extreme, spans)?;
    Ok(Ext::at(sum))
}

/// The activity of entries of which this is kept.
pub(crate) fn activity_of(kept: &Kept, extreme: Extreme, spans: &[Span]) -> Result<Ext, Past>
    requires { IsKept (ends_at extreme spans.now) kept.now }
    ensures { result ≡ activity_by extreme spans.now }
{
    match kept {
        Kept::Common(sum) => Ok(told_activity(sum)),
        Kept::Before(_) => activity_by_terms(extreme, spans),
    }
}

/// The rest by a sum of all.
fn common_rest(sum: &CommonSum, extreme: Extreme, spans: &[Span], place: usize) -> Option<Ext>
    requires sum { IsCommonSum (ends_at extreme spans.now) sum.now }
    requires place { place < length spans.now }
    ensures { IfSome result (λ e. row_sum (ends_at extreme (take place spans.now ++ drop (place + 1) spans.now)) ≡ Ok e) }
{
    told_rest(sum, extreme, &spans[place])
}

/// Which sides tell of no better bound of the column of an entry, by sums of all.
fn common_quiet_sides(
    least: &CommonSum,
    greatest: &CommonSum,
    spans: &[Span],
    place: usize,
    lower: &Ext,
    upper: &Ext,
) -> QuietSides
    requires spans { AreSpans 0 spans.now }
    requires least { IsCommonSum (ends_at extreme_of.Least spans.now) least.now }
    requires greatest { IsCommonSum (ends_at extreme_of.Greatest spans.now) greatest.now }
    requires place { place < length spans.now }
    ensures lower { IsTrue result.lower → IsQuiet extreme_of.Greatest lower.now (span_at spans.now place) (rest_without extreme_of.Greatest (span_at spans.now place).id spans.now) }
    ensures upper { IsTrue result.upper → IsQuiet extreme_of.Least upper.now (span_at spans.now place) (rest_without extreme_of.Least (span_at spans.now place).id spans.now) }
{
    quiet_sides(least, greatest, &spans[place], lower, upper)
}

/// None is told to be so.
fn no_quiet_sides() -> QuietSides
    ensures lower { result.lower ≡ false }
    ensures upper { result.upper ≡ false }
{
    QuietSides {
        lower: false,
        upper: false,
    }
}

/// The sum before a place, of those before each term.
fn sum_at(
    sums: &[Result<Frac, Past>],
    extreme: Extreme,
    spans: &[Span],
    place: usize,
) -> Result<Frac, Past>
    requires sums { sums.now ≡ all_before (Ok zero_ℚ) (ends_at extreme spans.now) }
    requires place { place < length spans.now }
    ensures { result ≡ sum_on zero_ℚ (ends_at extreme (take place spans.now)) }
{
    sums[place]
}

/// The sum of the terms before a place.
fn sum_before(kept: &Kept, extreme: Extreme, spans: &[Span], place: usize) -> Result<Frac, Past>
    requires kept { IsKept (ends_at extreme spans.now) kept.now }
    requires place { place < length spans.now }
    ensures { result ≡ sum_on zero_ℚ (ends_at extreme (take place spans.now)) }
{
    match kept {
        Kept::Before(sums) => sum_at(sums.as_slice(), extreme, spans, place),
        Kept::Common(_) => sum_from(Frac::zero(), extreme, &spans[..place]),
    }
}

/// The rest, continued from the sum before its place.
fn rest_by_terms(kept: &Kept, extreme: Extreme, spans: &[Span], place: usize) -> Result<Ext, Past>
    requires kept { IsKept (ends_at extreme spans.now) kept.now }
    requires place { place < length spans.now }
    ensures { result ≡ row_sum (ends_at extreme (take place spans.now ++ drop (place + 1) spans.now)) }
{
    let before = sum_before(kept, extreme, spans, place);
    continued_from(before, extreme, &spans[..place], &spans[place + 1..])
}

/// The activity of entries of which this is kept, without the one at a place.
pub(crate) fn rest_of(
    kept: &Kept,
    extreme: Extreme,
    spans: &[Span],
    place: usize,
) -> Result<Ext, Past>
    requires kept { IsKept (ends_at extreme spans.now) kept.now }
    requires place { place < length spans.now }
    ensures { result ≡ row_sum (ends_at extreme (take place spans.now ++ drop (place + 1) spans.now)) }
{
    if let Kept::Common(sum) = kept {
        if let Some(rest) = common_rest(sum, extreme, spans, place) {
            return Ok(rest);
        }
    }
    rest_by_terms(kept, extreme, spans, place)
}

/// The same, by the column of the entry.
pub(crate) fn rest_off(
    kept: &Kept,
    extreme: Extreme,
    spans: &[Span],
    place: usize,
) -> Result<Ext, Past>
    requires spans { AreSpans 0 spans.now }
    requires kept { IsKept (ends_at extreme spans.now) kept.now }
    requires place { place < length spans.now }
    ensures { result ≡ rest_without extreme (span_at spans.now place).id spans.now }
{
    rest_of(kept, extreme, spans, place)
}

impl RowSums {
    /// The sums of a row, by its entries in live columns.
    ///
    /// # Errors
    /// Memory ran out.
    pub fn of_row(alloc: Global, problem: &Problem, row: u32) -> Result<RowSums, AllocError>
        ensures { IfOk result (λ sums. sums ≡ spans_with problem.now row) }
    {
        problem.is_sparse();
        let spans = spans_of(alloc, problem, row)?;
        let sums = both_of(alloc, problem, row, spans.as_slice())?;
        Ok(RowSums {
            spans,
            least: sums.least,
            greatest: sums.greatest,
        })
    }

    /// The entries with the bounds of their columns, by column id.
    pub fn spans(&self) -> &[Span]
        ensures value { result.now ≡ self.now }
        ensures spans { AreSpans 0 self.now }
    {
        self.spans.as_slice()
    }

    /// The least, or the greatest, activity of the row.
    ///
    /// # Errors
    /// [`Past`] exactly where all terms are finite and one of them, or a step of their sum in order, has no room.
    pub fn activity(&self, extreme: Extreme) -> Result<Ext, Past>
        ensures { result ≡ activity_by extreme self.now }
    {
        match extreme {
            Extreme::Least => activity_of(&self.least, extreme, self.spans.as_slice()),
            Extreme::Greatest => activity_of(&self.greatest, extreme, self.spans.as_slice()),
        }
    }

    /// The same with the column of the entry at a place left out.
    ///
    /// # Errors
    /// [`Past`] exactly where all other terms are finite and one of them, or a step of their sum in order, has no room.
    pub fn rest(&self, extreme: Extreme, place: usize) -> Result<Ext, Past>
        requires { place < length self.now }
        ensures { result ≡ rest_without extreme (span_at self.now place).id self.now }
    {
        match extreme {
            Extreme::Least => rest_off(&self.least, extreme, self.spans.as_slice(), place),
            Extreme::Greatest => rest_off(&self.greatest, extreme, self.spans.as_slice(), place),
        }
    }

    /// Which sides of the row, of these, tell of no better bound of the column of an entry: they are infinite, or kept with the entry at its
    /// other end beside the rest that goes with them, the lower one with the greatest and the upper one with the least, or that is infinite.
    /// This takes a comparison of integers each; it is `false` also where the row's sums do not tell.
    pub fn quiet_sides(&self, place: usize, lower: &Ext, upper: &Ext) -> QuietSides
        requires { place < length self.now }
        ensures spans { AreSpans 0 self.now }
        ensures lower { IsTrue result.lower → IsQuiet extreme_of.Greatest lower.now (span_at self.now place) (rest_without extreme_of.Greatest (span_at self.now place).id self.now) }
        ensures upper { IsTrue result.upper → IsQuiet extreme_of.Least upper.now (span_at self.now place) (rest_without extreme_of.Least (span_at self.now place).id self.now) }
    {
        let Kept::Common(least) = &self.least else {
            return no_quiet_sides();
        };
        let Kept::Common(greatest) = &self.greatest else {
            return no_quiet_sides();
        };
        common_quiet_sides(least, greatest, self.spans.as_slice(), place, lower, upper)
    }
}
