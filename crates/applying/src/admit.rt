//! Whether the numbers of edits may stand.

ghost use Rattle.std.specs.Prelude.{◌↔◌, ⊤, All, IsTrue};
ghost use Rattle.problem_model.specs.NewNumbers.{EditFits, EditIsWritten, EditsAreWritten, EditsFit};
ghost use Rattle.problem_model.specs.Offsets.{OffsetFits};
ghost use Rattle.lp_model.specs.Ends.{WidthFits, WidthIsWritten, IsWritten};
ghost use Rattle.rule_words.specs.Answers.{Answers};

use fractions::ext::Ext;
use fractions::frac::Frac;
use fractions::{Numbers, Past};
use lp_model::writing::{are_near, can_write, can_write_both, can_write_end, width_of};
use problem_model::{Edit, Refusal};
use sparse_problem::Problem;

/// Whether the width of sides has room.
fn has_width(lower: &Ext, upper: &Ext) -> bool
    ensures { IsTrue result ↔ WidthFits lower.now upper.now }
{
    width_of(lower, upper).is_ok()
}

/// Whether an edit's numbers have room.
fn fits(edit: &Edit) -> bool
    ensures { IsTrue result ↔ EditFits edit.now }
{
    match edit {
        Edit::SetSides { lower, upper, .. } => has_width(lower, upper),
        Edit::SetBounds { lower, upper, .. } => are_near(lower, upper),
        Edit::DeleteRow { .. }
        | Edit::DeleteColumn { .. }
        | Edit::AddOffset { .. }
        | Edit::SetCost { .. }
        | Edit::SetEntry { .. } => true,
    }
}

/// Whether the numbers of all edits have room.
fn all_fit(edits: &[Edit]) -> bool
    ensures { IsTrue result ↔ All EditFits edits.now }
{
    for edit in edits {
        if !fits(edit) {
            return false;
        }
    }
    true
}

/// Whether the sums of the offset have room.
fn offset_fits(offset: Frac, edits: &[Edit]) -> bool
    ensures { IsTrue result ↔ OffsetFits offset edits.now }
{
    let mut sum = offset;
    let mut rest = edits;
    while let [edit, after @ ..] = rest {
        if let Edit::AddOffset { amount } = edit {
            match sum.add(amount) {
                Ok(more) => sum = more,
                Err(_) => return false,
            }
        }
        rest = after;
    }
    true
}

/// Whether the width of sides may be written.
fn can_write_width(numbers: Numbers, lower: &Ext, upper: &Ext) -> bool
    requires { WidthFits lower.now upper.now }
    ensures { IsTrue result ↔ WidthIsWritten numbers lower.now upper.now }
{
    match width_of(lower, upper) {
        Ok(width) => can_write_end(numbers, &width),
        Err(_) => false,
    }
}

/// Whether an edit's numbers may be written.
fn can_write_edit(numbers: Numbers, edit: &Edit) -> bool
    requires { EditFits edit.now }
    ensures { IsTrue result ↔ EditIsWritten numbers edit.now }
{
    match edit {
        Edit::SetSides { lower, upper, .. } => {
            can_write_both(numbers, lower, upper) && can_write_width(numbers, lower, upper)
        }
        Edit::SetBounds { lower, upper, .. } => can_write_both(numbers, lower, upper),
        Edit::SetCost { cost, .. } => can_write(numbers, cost),
        Edit::SetEntry { value, .. } => can_write(numbers, value),
        Edit::DeleteRow { .. } | Edit::DeleteColumn { .. } | Edit::AddOffset { .. } => true,
    }
}

/// Whether an edit's numbers may stand.
///
/// # Errors
/// Past where one has no room; else NotDecimal where one may not be written.
pub fn admit_edit(numbers: Numbers, edit: &Edit) -> Result<(), Refusal>
    ensures { Answers (EditFits edit.now) (EditIsWritten numbers edit.now) (λ u. ⊤) result }
{
    if !fits(edit) {
        return Err(Refusal::Past);
    }
    if !can_write_edit(numbers, edit) {
        return Err(Refusal::NotDecimal);
    }
    Ok(())
}

/// Whether the numbers of all edits may be written.
fn can_write_edits(numbers: Numbers, edits: &[Edit]) -> bool
    requires { All EditFits edits.now }
    ensures { IsTrue result ↔ EditsAreWritten numbers edits.now }
{
    for edit in edits {
        if !can_write_edit(numbers, edit) {
            return false;
        }
    }
    true
}

/// Whether the numbers of all edits may stand.
///
/// # Errors
/// Past where a width or the offset is or a finite bound is 10^20 or more in magnitude; else NotDecimal where a number may not be written.
pub fn admit(problem: &Problem, edits: &[Edit], numbers: Numbers) -> Result<(), Refusal>
    ensures { Answers (EditsFit problem.now edits.now) (EditsAreWritten numbers edits.now) (λ u. ⊤) result }
{
    if !all_fit(edits) || !offset_fits(problem.offset(), edits) {
        return Err(Refusal::Past);
    }
    if !can_write_edits(numbers, edits) {
        return Err(Refusal::NotDecimal);
    }
    Ok(())
}
