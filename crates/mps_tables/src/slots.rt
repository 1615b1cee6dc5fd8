//! Tables by number, which grow as they are filled.

ghost use Rattle.std.specs.Prelude.{◌≡◌, ◌==◌, ◌<◌, ◌||◌, ℕ, length, slice_index_or, OnOk, Some, None, false, if◌then◌else◌};
ghost use Rattle.std.specs.Vec.{vec_len};
ghost use Rattle.mps_tables.specs.Slots.{held, flag};

use std::alloc::{AllocError, Global};

/// Makes a list long enough to have a number, by values that stand for nothing.
#[tactic(auto, using(crate::proofs::Growing::blank_last))]
fn grow<T: Copy>(values: &mut Vec<T>, number: usize, blank: T) -> Result<(), AllocError>
    ensures long { OnOk result (number < vec_len values.new) }
    ensures same { OnOk result ((i : ℕ) → slice_index_or values.new.items i blank ≡ slice_index_or values.old.items i blank) }
{
    while values.len() <= number {
        values.push(blank)?;
    }
    Ok(())
}

/// A value for some numbers.
#[derive(Drop)]
pub struct Slots<T: Copy> {
    values: Vec<Option<T>>,
}

impl<T: Copy> Slots<T> {
    /// No value.
    pub fn new(alloc: Global) -> Self
        ensures { (i : ℕ) → held result i ≡ None }
    {
        Slots {
            values: Vec::new(alloc),
        }
    }

    /// The value that a number has.
    pub fn get(&self, number: usize) -> Option<T>
        ensures { result ≡ held self.now number }
    {
        match self.values.get(number) {
            Some(value) => *value,
            None => None,
        }
    }

    /// The values by number, up to the last number that has one.
    pub fn as_slice(&self) -> &[Option<T>]
        ensures { (i : ℕ) → slice_index_or result.now i None ≡ held self.now i }
    {
        self.values.as_slice()
    }

    /// Gives a number a value, in place of what it had.
    ///
    /// # Errors
    /// Where there is no memory.
    pub fn put(&mut self, number: usize, value: T) -> Result<(), AllocError>
        ensures { OnOk result ((i : ℕ) → held self.new i ≡ (if number == i then Some value else held self.old i)) }
    {
        grow(&mut self.values, number, None)?;
        self.values[number] = Some(value);
        Ok(())
    }
}

/// Marks on some numbers.
#[derive(Drop)]
pub struct Flags {
    marks: Vec<bool>,
}

impl Flags {
    /// No mark.
    pub fn new(alloc: Global) -> Self
        ensures { (i : ℕ) → flag result i ≡ false }
    {
        Flags {
            marks: Vec::new(alloc),
        }
    }

    /// Whether a number is marked.
    pub fn get(&self, number: usize) -> bool
        ensures { result ≡ flag self.now number }
    {
        match self.marks.get(number) {
            Some(mark) => *mark,
            None => false,
        }
    }

    /// The marks by number, up to the last number that is marked.
    pub fn as_slice(&self) -> &[bool]
        ensures { (i : ℕ) → slice_index_or result.now i false ≡ flag self.now i }
    {
        self.marks.as_slice()
    }

    /// Marks a number.
    ///
    /// # Errors
    /// Where there is no memory.
    pub fn mark(&mut self, number: usize) -> Result<(), AllocError>
        ensures { OnOk result ((i : ℕ) → flag self.new i ≡ (number == i || flag self.old i)) }
    {
        grow(&mut self.marks, number, false)?;
        self.marks[number] = true;
        Ok(())
    }
}
