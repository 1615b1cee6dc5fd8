//! The tableau.

ghost use Rattle.std.specs.Prelude.{◌≡◌, ◌↔◌, false, slice_index_or, is_err, IfOk, IfErr, IsOk, OnOk};
ghost use Rattle.tableau_laws.specs.Tableaus.{start as first, pivoted, shifted, CanPivot, CanShift};
ghost use Rattle.tableau_laws.specs.Room.{StartFits, PivotFits, ShiftFits};
ghost use Rattle.simplex_tableau.specs.Data.{shown};
ghost use Rattle.simplex_tableau.specs.Programs.{minimized};
ghost use Rattle.simplex_tableau.specs.declared.starting.NoStart.TheVariants.{Past as SumPast};
ghost use Rattle.tableau_rows.specs.Places.{row_of};

use crate::starting::{NoStart, first_flags, first_point, first_prices, first_rows, first_values};
use fractions::Past;
use fractions::frac::Frac;
use lp_model::Program;
use std::alloc::Global;
use std::marker::Model;
use tableau_rows::{Row, gain_of, move_all, move_to, number_at, turn_rows};

/// A tableau: which variables are basic, the row of each of them, and the price and the value of each variable. After a number
/// without room it is spent.
#[derive(Drop)]
pub struct Tableau {
    rows: Vec<Row>,
    line: Row,
    basic: Vec<bool>,
    prices: Vec<Frac>,
    values: Vec<Frac>,
    spent: bool,
}

impl Model for Tableau {
    ghost use Rattle.std.specs.Prelude.{◌≡◌, false, length};
    ghost use Rattle.std.specs.Coded.{codes};
    ghost use Rattle.fractions.specs.Lowest.{number_code};
    ghost use Rattle.simplex_tableau.specs.Data.{TableauData, IsShaped};

    ghost Value = { TableauData };

    ghost coded = { Prim.hlevel (codes, number_code) };

    ghost view = { λ t. record { rows = t.rows.items; basic = t.basic.items; prices = t.prices.items; values = t.values.items; spent = t.spent } };

    ghost invariant = { λ t. t.spent ≡ false → IsShaped (record { rows = t.rows.items; basic = t.basic.items; prices = t.prices.items; values = t.values.items; spent = t.spent }) × (length t.line ≡ 0) };
}

impl Tableau {
    /// The tableau at which a run starts: the variables of the rows are basic, and each column is at its lower bound, else at its
    /// upper one, else at 0. Costs are as they are minimized, negated where the greatest cost is wanted.
    ///
    /// # Errors
    /// [`NoStart::Past`] exactly where the sum of a row has no room: each coefficient times its column's number, by ascending column.
    pub fn start(alloc: Global, program: &Program) -> Result<Tableau, NoStart>
        ensures value { IfOk result (λ t. shown t ≡ first (minimized program.now)) }
        ensures usable { IfOk result (λ t. t.spent ≡ false) }
        ensures room { IfOk result (λ t. StartFits (minimized program.now)) }
        ensures past { IfErr result (λ e. e ≡ SumPast → StartFits (minimized program.now) → ⊥) }
    {
        let point = first_point(alloc, program)?;
        let values = first_values(alloc, program, &point)?;
        Ok(Tableau {
            rows: first_rows(alloc, program)?,
            line: Row::new(Vec::new(alloc)),
            basic: first_flags(alloc, program)?,
            prices: first_prices(alloc, program)?,
            values,
            spent: false,
        })
    }

    /// `b` goes to a bound and leaves, and `e` enters.
    ///
    /// # Errors
    /// [`Past`] exactly where a number of it has no room; then the tableau is spent.
    pub fn pivot(&mut self, b: usize, e: usize, bound: &Frac) -> Result<(), Past>
        requires usable { self.old.spent ≡ false }
        requires can { CanPivot (shown self.old) b e }
        ensures value { OnOk result (shown self.new ≡ pivoted (shown self.old) b e bound.now) }
        ensures spent { self.new.spent ≡ is_err result }
        ensures fits { IsOk result ↔ PivotFits (shown self.old) b e bound.now }
    {
        self.spent = true;
        let w = gain_of(self.values.as_slice(), &self.rows[b], bound, b, e)?;
        move_to(
            self.values.as_mut_slice(),
            self.rows.as_slice(),
            &w,
            bound,
            b,
            e,
        )?;
        turn_rows(
            &mut self.rows,
            &mut self.line,
            self.prices.as_mut_slice(),
            b,
            e,
        )?;
        self.basic[b] = false;
        self.basic[e] = true;
        self.spent = false;
        Ok(())
    }

    /// `e` gains `w`, and the basis stays.
    ///
    /// # Errors
    /// [`Past`] exactly where a number of it has no room; then the tableau is spent.
    pub fn shift(&mut self, e: usize, w: &Frac) -> Result<(), Past>
        requires usable { self.old.spent ≡ false }
        requires can { CanShift (shown self.old) e }
        ensures value { OnOk result (shown self.new ≡ shifted (shown self.old) e w.now) }
        ensures spent { self.new.spent ≡ is_err result }
        ensures fits { IsOk result ↔ ShiftFits (shown self.old) e w.now }
    {
        self.spent = true;
        move_all(self.values.as_mut_slice(), self.rows.as_slice(), w, e)?;
        self.spent = false;
        Ok(())
    }
}

/// The flag at an id, none past the last.
fn flag_at(flags: &[bool], id: usize) -> bool
    ensures { result ≡ slice_index_or flags.now id false }
{
    if id < flags.len() { flags[id] } else { false }
}

/// The number at two ids, 0 past the last row or number.
fn entry_at(rows: &[Row], m: usize, k: usize) -> Frac
    ensures { result ≡ row_of rows.now m k }
{
    if m < rows.len() {
        rows[m].at(k)
    } else {
        Frac::zero()
    }
}

impl Tableau {
    /// How many variables there are.
    pub fn size(&self) -> usize
        ensures { result ≡ (shown self.now).size }
    {
        self.values.len()
    }

    /// Whether a variable is basic.
    pub fn is_basic(&self, k: usize) -> bool
        ensures { result ≡ (shown self.now).basic k }
    {
        flag_at(self.basic.as_slice(), k)
    }

    /// The value of a variable.
    pub fn value(&self, k: usize) -> Frac
        ensures { result ≡ (shown self.now).values k }
    {
        number_at(self.values.as_slice(), k)
    }

    /// The price of a variable.
    pub fn price(&self, k: usize) -> Frac
        ensures { result ≡ (shown self.now).prices k }
    {
        number_at(self.prices.as_slice(), k)
    }

    /// The multiple at a basic variable and another one.
    pub fn entry(&self, m: usize, k: usize) -> Frac
        ensures { result ≡ (shown self.now).table m k }
    {
        entry_at(self.rows.as_slice(), m, k)
    }
}
