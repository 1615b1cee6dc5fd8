//! The rows so far.

ghost use Rattle.std.specs.Prelude.{◌≡◌, ◌≢◌, ◌<◌, ◌∷◌, ◌^◌, [], true, List, length, IfOk, OnOk};
ghost use Rattle.std.specs.Fmt.{decimal};
ghost use Rattle.mps_profile.specs.declared.row_kinds.RowKind.TheVariants as kinds;
ghost use Rattle.opb_text.specs.Tokens.{AtLeast, End, Equal, Minimum, Negated, Token};
ghost use Rattle.opb_text.specs.Words.{Text};
ghost use Rattle.opb_text.specs.Statements.{last_number, left_fits, negated_numbers, open_row, row_kinds, sum_fits};
ghost use Rattle.opb_reader.specs.Holding.{HoldRows};

use crate::sides::left_of;
use fractions::frac::Frac;
use fractions::whole::Whole;
use itoa::Buffer;
use lp_model::{Name, RowDef};
use mps_assembly::places::kind_at;
use mps_assembly::rows::{add_row, sides};
use mps_profile::row_kinds::RowKind;
use std::alloc::{AllocError, Global};

/// What the statements so far say of rows, `min:` being row 0: the rows that ended, and the one that is open.
#[derive(Drop)]
pub struct Rows {
    /// The kinds of the rows whose relations were read, that of `min:` being free.
    pub kinds: Vec<RowKind>,
    /// The rows that ended.
    pub rows: Vec<RowDef>,
    /// The number of the row that is open.
    pub current: usize,
    /// The constant of the cost.
    pub constant: Whole,
    /// The numbers of the negated literals of the statement that is open.
    pub negated: Vec<Whole>,
}

/// The name of a constraint.
fn constraint_name(alloc: Global, number: usize) -> Result<Name, AllocError>
    ensures { IfOk result (λ name. name ≡ 99 ∷ decimal number) }
{
    let mut buffer = Buffer::new();
    let mut bytes = Vec::from_slice(alloc, b"c")?;
    bytes.extend_from_slice(buffer.format(number).as_bytes())?;
    Ok(Name::new(bytes))
}

impl Rows {
    /// Before the first statement.
    ///
    /// # Errors
    /// Where there is no memory.
    pub fn new(alloc: Global) -> Result<Rows, AllocError>
        ensures { IfOk result (λ rows. HoldRows [] rows) }
    {
        Ok(Rows {
            kinds: Vec::from_slice(alloc, &[RowKind::Free])?,
            rows: Vec::new(alloc),
            current: 1,
            constant: Whole::natural(0),
            negated: Vec::new(alloc),
        })
    }

    /// The id of the next row of the program.
    pub fn next_id(&self) -> u32
        ensures { length self.now.rows.items < 2 ^ 32 → result ≡ length self.now.rows.items }
    {
        self.rows.len().min(u32::MAX as usize) as u32
    }

    /// `min:` begins, before any other statement.
    pub fn begin_costs(&mut self)
        ensures { (tokens : List Token) → HoldRows tokens self.old → open_row tokens ≡ 1 → HoldRows (Minimum ∷ tokens) self.new }
    {
        self.current = 0;
    }

    /// Takes the relation of the open row.
    ///
    /// # Errors
    /// Where there is no memory.
    pub fn take_relation(&mut self, kind: RowKind) -> Result<(), AllocError>
        ensures at_least { (tokens : List Token) → HoldRows tokens self.old → length (row_kinds tokens) ≡ open_row tokens → kind ≡ kinds.AtLeast → OnOk result (HoldRows (AtLeast ∷ tokens) self.new) }
        ensures equal { (tokens : List Token) → HoldRows tokens self.old → length (row_kinds tokens) ≡ open_row tokens → kind ≡ kinds.Equal → OnOk result (HoldRows (Equal ∷ tokens) self.new) }
    {
        self.kinds.push(kind)?;
        Ok(())
    }

    /// Takes the number of a negated literal.
    ///
    /// # Errors
    /// Where there is no memory.
    pub fn take_negated(&mut self, number: Whole) -> Result<(), AllocError>
        ensures { (tokens : List Token) (name : Text) → HoldRows tokens self.old → number ≡ last_number tokens → OnOk result (HoldRows (Negated name ∷ tokens) self.new) }
    {
        self.negated.push(number)?;
        Ok(())
    }

    /// Ends `min:`. It is false where a step of its sum is past the range.
    pub fn end_costs(&mut self) -> bool
        ensures fits { (tokens : List Token) → HoldRows tokens self.old → result ≡ sum_fits (negated_numbers tokens) }
        ensures held { (tokens : List Token) → HoldRows tokens self.old → open_row tokens ≡ 0 → result ≡ true → HoldRows (End ∷ tokens) self.new }
    {
        let Ok(less) = left_of(Whole::natural(0), self.negated.as_slice()) else {
            return false;
        };
        self.constant = less.negated();
        self.negated.clear();
        self.current = 1;
        true
    }

    /// Ends a constraint with a right side. It is false where a step of what is left of that is past the range.
    ///
    /// # Errors
    /// Where there is no memory.
    pub fn end_constraint(&mut self, alloc: Global, side: Whole) -> Result<bool, AllocError>
        ensures fits { (tokens : List Token) → HoldRows tokens self.old → side ≡ last_number tokens → IfOk result (λ heard. heard ≡ left_fits (last_number tokens) (negated_numbers tokens)) }
        ensures held { (tokens : List Token) → HoldRows tokens self.old → side ≡ last_number tokens → open_row tokens ≢ 0 → open_row tokens < 2 ^ 63 → IfOk result (λ heard. heard ≡ true → HoldRows (End ∷ tokens) self.new) }
    {
        let Ok(left) = left_of(side, self.negated.as_slice()) else {
            return Ok(false);
        };
        let kind = kind_at(self.kinds.as_slice(), self.current);
        let name = constraint_name(alloc, self.current)?;
        add_row(
            &mut self.rows,
            alloc,
            name.as_bytes(),
            sides(kind, Frac::whole(left), None),
        )?;
        self.negated.clear();
        self.current = self.current.saturating_add(1);
        Ok(true)
    }
}
