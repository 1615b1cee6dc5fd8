//! The values that the lines of a solution give to names.

ghost use Rattle.std.specs.Prelude.{◌≡◌, ◌<◌, ℕ, length, map, replicate, All, List, [], IfOk, Some, None, unwrap_or, if◌then◌else◌};
ghost use Rattle.std.specs.Result.{result_map_both};
ghost use Rattle.std.specs.Str.{bytes_eq};
ghost use Rattle.fractions.specs.Number.{zero_ℚ};
ghost use Rattle.names.specs.Names.{place};
ghost use Rattle.point_text.specs.SolutionLines.{Line, Gives, text_line};
ghost use Rattle.point_text.specs.Faults.{number_result};
ghost use Rattle.point_text.specs.Holding.{held, IsTableOf, Holds, Took};

use crate::faults::SolFaultKind;
use crate::solution_lines::SolutionLine;
use exact_numbers::{Exact, Numbers};
use exact_texts::Textual;
use lp_model::Labels;
use names::Names;
use number_texts::ReadNumber;
use std::alloc::{AllocError, Global};

/// The names of columns or of rows, each once, and for each of them the value that a line gave to it.
#[derive(Drop)]
pub struct Values<T> {
    pub table: Names,
    pub numbers: Vec<Option<T>>,
}

/// The number that a text means, or the fault of its line. Fails where memory runs out.
fn number_of<T: Textual>(alloc: Global, text: &[u8]) -> Result<Result<T, SolFaultKind>, AllocError>
    ensures { IfOk result (λ read. result_map_both T.number (λ kind. kind) read ≡ number_result (T.texts.reading text.now)) }
{
    match T::read(alloc, text)? {
        Ok(number) => Ok(Ok(number)),
        Err(ReadNumber::NumberPast) => Ok(Err(SolFaultKind::NumberPast)),
        Err(ReadNumber::NotNumber) => Ok(Err(SolFaultKind::BadNumber)),
    }
}

/// A table of the columns' names. Fails where memory runs out.
fn column_table<L: Labels>(alloc: Global, labels: &L) -> Result<Names, AllocError>
    ensures { IfOk result (λ table. IsTableOf (L.column_names labels.now) table) }
{
    let mut table = Names::new(alloc);
    for id in 0..labels.column_count() {
        table.insert(alloc, labels.column_name(id).as_bytes())?;
    }
    Ok(table)
}

/// A table of the rows' names. Fails where memory runs out.
fn row_table<L: Labels>(alloc: Global, labels: &L) -> Result<Names, AllocError>
    ensures { IfOk result (λ table. IsTableOf (L.row_names labels.now) table) }
{
    let mut table = Names::new(alloc);
    for id in 0..labels.row_count() {
        table.insert(alloc, labels.row_name(id).as_bytes())?;
    }
    Ok(table)
}

/// No number at each of so many places. Fails where memory runs out.
fn no_numbers<T: Drop>(alloc: Global, count: usize) -> Result<Vec<Option<T>>, AllocError>
    ensures { IfOk result (λ numbers. numbers.items ≡ replicate count None) }
{
    let mut numbers = Vec::with_capacity(alloc, count)?;
    for i in 0..count {
        numbers.push(None)?;
    }
    Ok(numbers)
}

/// A number once more. Fails where memory runs out.
fn copy_of<T: Exact>(alloc: Global, number: &T) -> Result<T, AllocError>
    ensures value { IfOk result (λ r. T.number r ≡ T.number number.now) }
    ensures kept { IfOk result (λ r. T.room.number (T.number r)) }
{
    match number.copied(alloc) {
        Ok(copy) => Ok(copy),
        Err(_) => Err(AllocError),
    }
}

impl<T: Textual> Values<T> {
    /// The columns' names, none with a value. Fails where memory runs out.
    pub fn new<L: Labels>(alloc: Global, labels: &L) -> Result<Values<T>, AllocError>
        ensures len { IfOk result (λ values. length values.numbers.items ≡ length values.table) }
        ensures holds { IfOk result (λ values. Holds T.texts.reading [] (held T.number values)) }
        ensures table { IfOk result (λ values. IsTableOf (L.column_names labels.now) values.table) }
    {
        let table = column_table(alloc, labels)?;
        let numbers = no_numbers(alloc, table.len())?;
        Ok(Values { table, numbers })
    }

    /// The rows' names, none with a value. Fails where memory runs out.
    pub fn of_rows<L: Labels>(alloc: Global, labels: &L) -> Result<Values<T>, AllocError>
        ensures len { IfOk result (λ values. length values.numbers.items ≡ length values.table) }
        ensures holds { IfOk result (λ values. Holds T.texts.reading [] (held T.number values)) }
        ensures table { IfOk result (λ values. IsTableOf (L.row_names labels.now) values.table) }
    {
        let table = row_table(alloc, labels)?;
        let numbers = no_numbers(alloc, table.len())?;
        Ok(Values { table, numbers })
    }

    /// Gives a number to the name at a place of the table.
    fn put(&mut self, name: &[u8], id: usize, number: T)
        requires len { length self.old.numbers.items ≡ length self.old.table }
        requires within { id < length self.old.table }
        requires named { place name.now self.old.table ≡ Some id }
        ensures held { (other : List ℕ) → held T.number self.new other ≡ (if bytes_eq name.now other then Some (T.number number) else held T.number self.old other) }
        ensures len { length self.new.numbers.items ≡ length self.new.table }
        ensures table { self.new.table ≡ self.old.table }
    {
        self.numbers[id] = Some(number);
    }

    /// Takes in a number by a name, or says the first fault by number. Fails where memory runs out.
    fn give(
        &mut self,
        alloc: Global,
        name: &[u8],
        text: &[u8],
    ) -> Result<Result<(), SolFaultKind>, AllocError>
        requires { length self.old.numbers.items ≡ length self.old.table }
        ensures took { IfOk result (λ done. (before : List Line) → Holds T.texts.reading before (held T.number self.old) → Took T.texts.reading self.old.table before (Gives name.now text.now) done (held T.number self.new)) }
        ensures len { length self.new.numbers.items ≡ length self.new.table }
        ensures table { self.new.table ≡ self.old.table }
    {
        let Some(id) = self.table.find(name) else {
            return Ok(Err(SolFaultKind::UnknownName));
        };
        if self.numbers[id].is_some() {
            return Ok(Err(SolFaultKind::TwiceNamed));
        }
        match number_of(alloc, text)? {
            Ok(number) => {
                self.put(name, id, number);
                Ok(Ok(()))
            }
            Err(kind) => Ok(Err(kind)),
        }
    }

    /// Takes in a line, or says its first fault by number. Fails where memory runs out.
    pub fn take_line(
        &mut self,
        alloc: Global,
        line: SolutionLine<'_>,
    ) -> Result<Result<(), SolFaultKind>, AllocError>
        requires { length self.old.numbers.items ≡ length self.old.table }
        ensures took { IfOk result (λ done. (before : List Line) → Holds T.texts.reading before (held T.number self.old) → Took T.texts.reading self.old.table before (text_line line.entry) done (held T.number self.new)) }
        ensures len { length self.new.numbers.items ≡ length self.new.table }
        ensures table { self.new.table ≡ self.old.table }
    {
        match line {
            SolutionLine::Silent => Ok(Ok(())),
            SolutionLine::Gives { name, number } => self.give(alloc, name, number),
            SolutionLine::Odd => Ok(Err(SolFaultKind::BadLine)),
        }
    }

    /// The value of a name, 0 where no line gave one to it. Fails where memory runs out.
    fn value(&self, alloc: Global, name: &[u8]) -> Result<T, AllocError>
        requires { length self.now.numbers.items ≡ length self.now.table }
        ensures value { IfOk result (λ r. T.number r ≡ unwrap_or (held T.number self.now name.now) zero_ℚ) }
        ensures kept { IfOk result (λ r. T.room.number (T.number r)) }
    {
        let Some(id) = self.table.find(name) else {
            return Ok(T::zero());
        };
        match &self.numbers[id] {
            Some(number) => copy_of(alloc, number),
            None => Ok(T::zero()),
        }
    }

    /// The value of each column. Fails where memory runs out.
    pub fn point<L: Labels>(&self, alloc: Global, labels: &L) -> Result<Numbers<T>, AllocError>
        requires { length self.now.numbers.items ≡ length self.now.table }
        ensures values { IfOk result (λ point. point ≡ map (λ name. unwrap_or (held T.number self.now name) zero_ℚ) (L.column_names labels.now)) }
        ensures kept { IfOk result (λ point. All T.room.number point) }
    {
        let mut values = Vec::new(alloc);
        for id in 0..labels.column_count() {
            values.push(self.value(alloc, labels.column_name(id).as_bytes())?)?;
        }
        Ok(Numbers::of(values))
    }

    /// The dual of each row. Fails where memory runs out.
    pub fn duals<L: Labels>(&self, alloc: Global, labels: &L) -> Result<Numbers<T>, AllocError>
        requires { length self.now.numbers.items ≡ length self.now.table }
        ensures values { IfOk result (λ duals. duals ≡ map (λ name. unwrap_or (held T.number self.now name) zero_ℚ) (L.row_names labels.now)) }
        ensures kept { IfOk result (λ duals. All T.room.number duals) }
    {
        let mut values = Vec::new(alloc);
        for id in 0..labels.row_count() {
            values.push(self.value(alloc, labels.row_name(id).as_bytes())?)?;
        }
        Ok(Numbers::of(values))
    }
}
