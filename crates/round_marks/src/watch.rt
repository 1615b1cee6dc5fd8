//! What rounds watch.

ghost use Rattle.std.specs.Prelude.{◌≡◌, ◌≢◌, ◌∷◌, true, [], IfOk, OnOk};
ghost use Rattle.line_groups.specs.Groups.{AreGroupsOf};
ghost use Rattle.problem_model.specs.Noted.{AreNoted};
ghost use Rattle.presolve_model.specs.declared.outcome.Outcome.TheVariants.{NoMemory};
ghost use Rattle.presolve_model.specs.Commits.{Allows, left_by};
ghost use Rattle.presolve_model.specs.Enabled.{enabled_on};
ghost use Rattle.presolve_model.specs.Scans.{proposal_of};
ghost use Rattle.place_laws.specs.Choosing.{AreSorted, HoldsAround};
ghost use Rattle.place_laws.specs.Marks.{AreStirred, is_refusal as refuses};
ghost use Rattle.round_marks.specs.Forming.{AreFormsOf, forms_of};
ghost use Rattle.round_marks.specs.Marking.{all_marked, left_over, marked, Notes};

use crate::around::Around;
use crate::forms::Forms;
use line_groups::Parallels;
use presolve_model::{Instance, Outcome, Part, Reach};
use sparse_problem::Problem;
use std::alloc::{AllocError, Global};
use std::marker::Model;
use txn_book::Book;
use txn_book::rule_table::{reach_of, rests_on_reading, rule_of};

/// What is marked for the next round. Noted: parts that have changed, and a part of each instance that is left over. Stirred and
/// roused: the same for the rules that look only at the form of ends, at columns and at rows, so parts of which what is seen lets them apply where
/// it did not before. Asleep: a part of each instance that was refused, and
/// will be until what it reads changes. With it the forms of all ends, by which it is known what is seen.
#[derive(Drop)]
pub struct Watch {
    noted: Vec<Part>,
    stirred: Vec<Part>,
    roused: Vec<Part>,
    asleep: Vec<Part>,
    forms: Forms,
}

impl Model for Watch {
    ghost use Rattle.round_marks.specs.Marking.{Watched};

    ghost Value = { Watched };

    ghost view = { λ w. record { marks = record { noted = w.noted.items; stirred = w.stirred.items; roused = w.roused.items; asleep = w.asleep.items }; forms = w.forms } };
}

/// Whether an answer refuses for a number.
fn is_refusal(outcome: Outcome) -> bool
    ensures { result ≡ refuses outcome }
{
    match outcome {
        Outcome::Past | Outcome::NotDecimal => true,
        Outcome::Closed { .. }
        | Outcome::Full
        | Outcome::Stale { .. }
        | Outcome::Applied { .. }
        | Outcome::NoMemory => false,
    }
}

impl Watch {
    /// The forms of a problem, and no marks.
    pub fn of(alloc: Global, problem: &Problem) -> Result<Watch, AllocError>
        ensures { IfOk result (λ watch. watch ≡ record { marks = record { noted = []; stirred = []; roused = []; asleep = [] }; forms = forms_of problem.now }) }
    {
        let forms = Forms::of(alloc, problem)?;
        Ok(Watch {
            noted: Vec::new(alloc),
            stirred: Vec::new(alloc),
            roused: Vec::new(alloc),
            asleep: Vec::new(alloc),
            forms,
        })
    }

    /// The parts that are noted.
    pub fn noted(&self) -> &[Part]
        ensures { result.now ≡ self.now.marks.noted }
    {
        self.noted.as_slice()
    }

    /// All parts that are marked.
    pub fn all(&self, alloc: Global) -> Result<Vec<Part>, AllocError>
        ensures { IfOk result (λ parts. parts.items ≡ all_marked self.now.marks) }
    {
        let mut parts = Vec::from_slice(alloc, self.noted.as_slice())?;
        parts.extend_from_slice(self.stirred.as_slice())?;
        parts.extend_from_slice(self.roused.as_slice())?;
        parts.extend_from_slice(self.asleep.as_slice())?;
        Ok(parts)
    }

    /// The rows and columns to which what is marked leads. Lines that are multiples of others are found by the groups of the problem.
    pub fn around(
        &self,
        alloc: Global,
        problem: &Problem,
        groups: &Parallels,
    ) -> Result<Around, AllocError>
        requires { AreGroupsOf groups.now problem.now }
        ensures sorted { IfOk result AreSorted }
        ensures holds { IfOk result (HoldsAround problem.now self.now.marks) }
    {
        Around::of_parts(
            alloc,
            problem,
            groups,
            self.noted.as_slice(),
            self.stirred.as_slice(),
            self.roused.as_slice(),
        )
    }

    /// Forgets what is noted, stirred and roused. What sleeps goes on.
    pub fn begin_round(&mut self)
        ensures { self.new ≡ record { marks = record { noted = []; stirred = []; roused = []; asleep = self.old.marks.asleep }; forms = self.old.forms } }
    {
        self.noted.clear();
        self.stirred.clear();
        self.roused.clear();
    }

    /// Notes a part that has changed.
    fn note_one(&mut self, problem: &Problem, part: Part) -> Result<(), AllocError>
        ensures { OnOk result (Notes problem.now (part ∷ []) self.old self.new) }
    {
        self.noted.push(part)?;
        if !self.forms.keep_by_cost(problem, part) {
            self.stirred.push(part)?;
        }
        if !self.forms.keep_in_pairs(problem, part) {
            self.roused.push(part)?;
        }
        self.forms.refresh(problem, part);
        Ok(())
    }

    /// Notes parts that have changed, in turn.
    ///
    /// # Errors
    /// Memory ran out.
    pub fn note(&mut self, problem: &Problem, changed: &[Part]) -> Result<(), AllocError>
        ensures { OnOk result (Notes problem.now changed.now self.old self.new) }
    {
        let mut rest = changed;
        while let [part, after @ ..] = rest {
            self.note_one(problem, *part)?;
            rest = after;
        }
        Ok(())
    }

    /// Applies an enabled instance, as one that was found on this version, and notes what changes.
    ///
    /// # Errors
    /// Memory ran out.
    pub fn apply(
        &mut self,
        alloc: Global,
        book: &mut Book,
        version: u64,
        instance: Instance,
    ) -> Result<Outcome, AllocError>
        requires enabled { enabled_on book.old.problem instance ≡ true }
        requires forms { AreFormsOf self.old.forms book.old.problem }
        ensures answered { IfOk result (λ outcome. outcome ≢ NoMemory) }
        ensures outcome { IfOk result (λ outcome. Allows book.old (proposal_of book.old.problem version instance) outcome) }
        ensures left { IfOk result (λ outcome. book.new ≡ left_by book.old 0 (proposal_of book.old.problem version instance) outcome) }
        ensures noted { OnOk result (AreNoted book.old.problem book.new.problem self.old.marks.noted self.new.marks.noted) }
        ensures stirred { OnOk result (AreStirred book.old.problem book.new.problem self.old.marks self.new.marks) }
        ensures asleep { OnOk result (self.new.marks.asleep ≡ self.old.marks.asleep) }
        ensures forms { OnOk result (AreFormsOf self.new.forms book.new.problem) }
    {
        let mut changed = Vec::new(alloc);
        let outcome = book.apply(alloc, version, instance, &mut changed);
        match outcome {
            Outcome::NoMemory => return Err(AllocError),
            _ => {}
        }
        self.note(book.problem(), changed.as_slice())?;
        Ok(outcome)
    }

    /// Marks a part of an instance that is left over for the next round.
    pub fn leave(&mut self, instance: Instance, part: Part) -> Result<(), AllocError>
        ensures { OnOk result (self.new ≡ record { marks = left_over self.old.marks instance part; forms = self.old.forms }) }
    {
        match reach_of(rule_of(instance)) {
            Reach::OwnRow
            | Reach::OwnColumn
            | Reach::RowsOfBounds
            | Reach::SoleColumns
            | Reach::RowsBeside
            | Reach::ColumnsBeside => self.noted.push(part)?,
            Reach::ColumnsOfSides => self.stirred.push(part)?,
            Reach::RowsOfBoth => self.roused.push(part)?,
        }
        Ok(())
    }

    /// Marks a part of an instance by what became of it. Where it is refused for a number, and such a refusal rests on what it reads, it
    /// sleeps; else it is left over.
    pub fn mark(
        &mut self,
        instance: Instance,
        outcome: Outcome,
        part: Part,
    ) -> Result<(), AllocError>
        ensures { OnOk result (self.new ≡ record { marks = marked self.old.marks instance outcome part; forms = self.old.forms }) }
    {
        if is_refusal(outcome) && rests_on_reading(instance) {
            self.asleep.push(part)?;
            Ok(())
        } else {
            self.leave(instance, part)
        }
    }
}
