//! Rows, or columns, in groups by their keys.

ghost use Rattle.std.specs.Prelude.{◌≡◌, ◌<◌, ℕ, length, slice_set, OnOk};
ghost use Rattle.std.specs.List.{Contains};
ghost use Rattle.line_groups.specs.Steps.{Puts};

use crate::ids::Ids;
use crate::keys::key_of_part;
use indexmap::IndexSet;
use problem_model::Part;
use sorted_ids::sort_once;
use sparse_problem::Problem;
use std::alloc::{AllocError, Global};
use std::marker::Model;

/// Rows or columns.
#[derive(Clone, Copy, Debug, PartialEq, Eq)]
pub enum Kind {
    Rows,
    Columns,
}

impl Kind {
    ghost use Rattle.std.specs.Prelude.{◌≡◌, ◌<◌, ◌^◌, ◌++◌, ℕ, IfOk, OnOk};
    ghost use Rattle.std.specs.List.{Contains, flat_map};
    ghost use Rattle.line_groups.specs.Steps.{count_in, lines_in, part_of};

    /// The part with a line's entries.
    fn part(self, id: u32) -> Part
        ensures { result ≡ part_of self id }
    {
        match self {
            Kind::Rows => Part::Row(id),
            Kind::Columns => Part::Col(id),
        }
    }

    /// Adds the line of a part, if it is one with entries of a line of this kind.
    fn add_line(self, part: Part, lines: &mut Vec<u32>) -> Result<(), AllocError>
        ensures { OnOk result (lines.new.items ≡ lines.old.items ++ lines_in self part) }
    {
        match part {
            Part::Row(i) => {
                if self == Kind::Rows {
                    lines.push(i)?;
                }
            }
            Part::Col(j) => {
                if self == Kind::Columns {
                    lines.push(j)?;
                }
            }
            Part::Sides(_) | Part::Bounds(_) => {}
        }
        Ok(())
    }

    /// The lines of this kind whose parts are among these.
    fn all_lines_of(self, alloc: Global, parts: &[Part]) -> Result<Vec<u32>, AllocError>
        ensures { IfOk result (λ lines. lines.items ≡ flat_map (lines_in self) parts.now) }
    {
        let mut lines = Vec::new(alloc);
        let mut rest = parts;
        while let [part, after @ ..] = rest {
            self.add_line(*part, &mut lines)?;
            rest = after;
        }
        Ok(lines)
    }

    /// The same, each once.
    fn lines_of(self, alloc: Global, parts: &[Part]) -> Result<Vec<u32>, AllocError>
        ensures { IfOk result (λ lines. (k : ℕ) → Contains parts.now (part_of self k) → Contains lines.items k) }
    {
        let mut lines = self.all_lines_of(alloc, parts)?;
        sort_once(&mut lines)?;
        Ok(lines)
    }

    /// How many lines there are.
    fn count(self, problem: &Problem) -> usize
        ensures value { result ≡ count_in self problem.now }
        ensures few { result < 2 ^ 32 }
    {
        match self {
            Kind::Rows => problem.row_count(),
            Kind::Columns => problem.column_count(),
        }
    }
}

/// Adds an id to one of many lists of ids.
fn add_to(groups: &mut Vec<Ids>, number: usize, id: u32) -> Result<(), AllocError>
    ensures { number < length groups.old.items → OnOk result (Puts groups.old.items groups.new.items number id) }
{
    if number < groups.len() {
        groups[number].add(id)?;
    }
    Ok(())
}

/// Sets the number of a line, if it is there.
fn set_number(numbers: &mut Vec<usize>, id: u32, number: usize)
    ensures { id < length numbers.old.items → numbers.new.items ≡ slice_set numbers.old.items id number }
{
    if (id as usize) < numbers.len() {
        numbers[id as usize] = number;
    }
}

/// Lines of one kind in groups.
#[derive(Drop)]
pub struct Groups {
    keys: IndexSet<u64>,
    numbers: Vec<usize>,
    groups: Vec<Ids>,
}

impl Model for Groups {
    ghost use Rattle.line_groups.specs.Groups.{Grouped};

    ghost Value = { Grouped };

    ghost view = { λ g. record { keys = g.keys.keys; numbers = g.numbers.items; groups = g.groups.items } };
}

impl Groups {
    ghost use Rattle.std.specs.Prelude.{◌≡◌, ◌⊎◌, ◌<◌, ◌++◌, ◌∷◌, [], ℕ, nat_eq, position, Some, IfOk, OnOk};
    ghost use Rattle.std.specs.List.{Contains, flat_map};
    ghost use Rattle.problem_model.specs.declared.part.Part.{Part as APart};
    ghost use Rattle.problem_model.specs.Parts.{contents_of};
    ghost use Rattle.problem_model.specs.Sparse.{Sparse};
    ghost use Rattle.line_groups.specs.Groups.{group_at, ids_in, lone_at, many_at, number_at, IsTable};
    ghost use Rattle.line_groups.specs.Steps.{count_in, key_by, Adds, AreOf, HasGroup, Renews, RenewsLines};

    /// No groups, for so many lines.
    fn new(alloc: Global, count: usize) -> Result<Groups, AllocError>
        ensures { IfOk result (λ g. IsTable g count) }
    {
        Ok(Groups {
            keys: IndexSet::new(alloc),
            numbers: vec![in alloc; usize::MAX; count]?,
            groups: Vec::new(alloc),
        })
    }

    /// The number of the group with a key; where there was none, that of a new one, which has no ids.
    fn number_of(&mut self, alloc: Global, key: u64) -> Result<usize, AllocError>
        ensures { (count : ℕ) → IsTable self.old count → IfOk result (λ n. HasGroup self.old self.new count key n) }
    {
        match self.keys.get_index_of(&key) {
            Some(number) => Ok(number),
            None => {
                let number = self.keys.len();
                self.groups.push(Ids::new(alloc))?;
                self.keys.insert(key)?;
                Ok(number)
            }
        }
    }

    /// Puts a line into a group by its number.
    fn put(&mut self, number: usize, id: u32) -> Result<(), AllocError>
        ensures { (count key : ℕ) → IsTable self.old count → position (nat_eq key) self.old.keys ≡ Some number → id < count → OnOk result (Adds self.old self.new count key id) }
    {
        add_to(&mut self.groups, number, id)?;
        set_number(&mut self.numbers, id, number);
        Ok(())
    }

    /// Puts a line into the group with a key.
    fn add(&mut self, alloc: Global, key: u64, id: u32) -> Result<(), AllocError>
        ensures { (count : ℕ) → IsTable self.old count → id < count → OnOk result (Adds self.old self.new count key id) }
    {
        let number = self.number_of(alloc, key)?;
        self.put(number, id)
    }

    /// Puts a line into the group with the key that it has now, if it has one.
    pub fn renew(
        &mut self,
        alloc: Global,
        problem: &Problem,
        kind: Kind,
        id: u32,
    ) -> Result<(), AllocError>
        ensures { IsTable self.old (count_in kind problem.now) → OnOk result (Renews self.old self.new (count_in kind problem.now) (key_by problem.now kind) id) }
    {
        match key_of_part(problem, kind.part(id)) {
            Some(key) => self.add(alloc, key, id),
            None => Ok(()),
        }
    }

    /// All lines of a kind in their groups.
    pub fn of(alloc: Global, problem: &Problem, kind: Kind) -> Result<Groups, AllocError>
        ensures { IfOk result (λ g. AreOf problem.now kind g) }
    {
        let count = kind.count(problem);
        let mut groups = Groups::new(alloc, count)?;
        for id in 0..count as u32 {
            groups.renew(alloc, problem, kind, id)?;
        }
        Ok(groups)
    }

    /// Puts lines into the groups with the keys that they have now.
    fn renew_lines(
        &mut self,
        alloc: Global,
        problem: &Problem,
        kind: Kind,
        lines: &[u32],
    ) -> Result<(), AllocError>
        ensures { IsTable self.old (count_in kind problem.now) → OnOk result (RenewsLines self.old self.new problem.now kind lines.now) }
    {
        for line in lines {
            self.renew(alloc, problem, kind, *line)?;
        }
        Ok(())
    }

    /// Whether there are more than twice as many groups as lines, and 1,000.
    fn are_many(&self, problem: &Problem, kind: Kind) -> bool {
        self.groups.len() / 2 > kind.count(problem) + 500
    }

    /// Makes the groups those of a problem, where the lines that are not among these parts are as they were. Groups that no line is in any
    /// more stay, up to a number at which all are made anew.
    pub fn refresh(
        &mut self,
        alloc: Global,
        problem: &Problem,
        kind: Kind,
        parts: &[Part],
    ) -> Result<(), AllocError>
        ensures { (f : Sparse) → AreOf f kind self.old → count_in kind problem.now ≡ count_in kind f → ((a : APart) → (contents_of problem.now a ≡ contents_of f a) ⊎ Contains parts.now a) → OnOk result (AreOf problem.now kind self.new) }
    {
        if self.are_many(problem, kind) {
            *self = Groups::of(alloc, problem, kind)?;
            return Ok(());
        }
        let lines = kind.lines_of(alloc, parts)?;
        self.renew_lines(alloc, problem, kind, lines.as_slice())
    }

    /// The ids in a group by its number; one past the last has none.
    pub fn ids_in(&self, number: usize) -> &[u32]
        ensures { result.now ≡ ids_in self.now number }
    {
        match self.groups.get(number) {
            Some(ids) => ids.as_slice(),
            None => &[],
        }
    }

    /// The number of a line's group; one past the last has 0.
    pub fn number_at(&self, id: u32) -> usize
        ensures { result ≡ number_at self.now id }
    {
        match self.numbers.get(id as usize) {
            Some(number) => *number,
            None => 0,
        }
    }

    /// The ids in the group of a line.
    pub fn beside(&self, id: u32) -> &[u32]
        ensures { result.now ≡ group_at self.now id }
    {
        self.ids_in(self.number_at(id))
    }

    /// Adds the id in the group of a line where it is alone, or the number of the group where there are more.
    fn add_lone(
        &self,
        line: u32,
        ids: &mut Vec<u32>,
        numbers: &mut Vec<usize>,
    ) -> Result<(), AllocError>
        ensures ids { OnOk result (ids.new.items ≡ ids.old.items ++ lone_at self.now line) }
        ensures numbers { OnOk result (numbers.new.items ≡ numbers.old.items ++ many_at self.now line) }
    {
        let number = self.number_at(line);
        match self.ids_in(number) {
            [] => {}
            [only] => ids.push(*only)?,
            _ => numbers.push(number)?,
        }
        Ok(())
    }

    /// Adds the id in the group of each of these lines where it is alone, and finds the numbers of the other groups.
    fn add_all_lone(
        &self,
        alloc: Global,
        lines: &[u32],
        ids: &mut Vec<u32>,
    ) -> Result<Vec<usize>, AllocError>
        ensures ids { OnOk result (ids.new.items ≡ ids.old.items ++ flat_map (lone_at self.now) lines.now) }
        ensures numbers { IfOk result (λ numbers. numbers.items ≡ flat_map (many_at self.now) lines.now) }
    {
        let mut numbers = Vec::new(alloc);
        let mut rest = lines;
        while let [line, after @ ..] = rest {
            self.add_lone(*line, ids, &mut numbers)?;
            rest = after;
        }
        Ok(numbers)
    }

    /// Adds the ids in groups.
    fn add_groups(&self, numbers: &[usize], ids: &mut Vec<u32>) -> Result<(), AllocError>
        ensures { OnOk result (ids.new.items ≡ ids.old.items ++ flat_map (ids_in self.now) numbers.now) }
    {
        let mut rest = numbers;
        while let [number, after @ ..] = rest {
            ids.extend_from_slice(self.ids_in(*number))?;
            rest = after;
        }
        Ok(())
    }

    /// Adds the ids in the groups of lines, those of each group once.
    pub fn add_beside(
        &self,
        alloc: Global,
        lines: &[u32],
        ids: &mut Vec<u32>,
    ) -> Result<(), AllocError>
        ensures kept { OnOk result ((k : ℕ) → Contains ids.old.items k → Contains ids.new.items k) }
        ensures holds { OnOk result ((k m : ℕ) → Contains lines.now k → Contains (group_at self.now k) m → Contains ids.new.items m) }
    {
        let mut numbers = self.add_all_lone(alloc, lines, ids)?;
        keep_once(&mut numbers);
        self.add_groups(numbers.as_slice(), ids)
    }
}

/// Keeps each number once.
fn keep_once(numbers: &mut Vec<usize>)
    ensures { (n : ℕ) → Contains numbers.old.items n → Contains numbers.new.items n }
{
    numbers.sort_unstable();
    numbers.dedup();
}
