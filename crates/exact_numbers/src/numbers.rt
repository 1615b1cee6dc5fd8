//! Numbers of a kind by id.

ghost use Rattle.std.specs.Prelude.{◌≡◌, ◌<◌, length, map, IfOk};
ghost use Rattle.fractions.specs.Number.{neg_ℚ};
ghost use Rattle.fractions.specs.Total.{put};
ghost use Rattle.lp_model.specs.Vectors.{vector_of};

use crate::Exact;
use fractions::frac::Frac;
use std::alloc::{AllocError, Global};
use std::marker::Model;

/// Numbers of a kind, by id. In a contract they are a list of numbers.
#[derive(Drop)]
pub struct Numbers<T: Exact> {
    values: Vec<T>,
}

impl<T: Exact> Model for Numbers<T> {
    ghost use Rattle.std.specs.Prelude.{List, map};
    ghost use Rattle.std.specs.Coded.{codes};
    ghost use Rattle.fractions.specs.Lowest.{number_code};
    ghost use Rattle.fractions.specs.Number.{Number};

    ghost Value = { List Number };

    ghost coded = { Prim.hlevel (codes, number_code) };

    ghost view = { λ p. map T.number p.values.items };
}

impl<T: Exact> Numbers<T> {
    /// These numbers.
    pub fn of(values: Vec<T>) -> Numbers<T>
        ensures { result ≡ map T.number values.items }
    {
        Numbers { values }
    }

    /// The numbers that these fractions are.
    ///
    /// # Errors
    /// No memory.
    pub fn of_fractions(alloc: Global, fractions: &[Frac]) -> Result<Numbers<T>, AllocError>
        ensures { IfOk result (λ numbers. numbers ≡ fractions.now) }
    {
        let mut values = Vec::with_capacity(alloc, fractions.len())?;
        for fraction in fractions {
            values.push(T::of(fraction))?;
        }
        Ok(Numbers { values })
    }

    /// The numbers, by id.
    pub fn as_slice(&self) -> &[T]
        ensures { map T.number result.now ≡ self.now }
    {
        self.values.as_slice()
    }

    /// The values that stand for them, by id.
    pub fn into_vec(self) -> Vec<T>
        ensures { map T.number result.items ≡ self }
    {
        self.values
    }

    /// How many there are.
    pub fn len(&self) -> usize
        ensures { result ≡ length self.now }
    {
        self.values.len()
    }

    /// The number at an id.
    pub fn at(&self, id: u32) -> &T
        requires { id < length self.now }
        ensures { T.number result.now ≡ vector_of self.now id }
    {
        &self.values[id as usize]
    }

    /// Sets the number at an id.
    pub fn set(&mut self, id: u32, number: T)
        requires { id < length self.old }
        ensures size { length self.new ≡ length self.old }
        ensures value { vector_of self.new ≡ put (vector_of self.old) id (T.number number) }
    {
        self.values[id as usize] = number;
    }

    /// Turns the number at an index into its negative.
    fn negate_at(&mut self, index: usize)
        requires { index < length self.old }
        ensures size { length self.new ≡ length self.old }
        ensures value { vector_of self.new ≡ put (vector_of self.old) index (neg_ℚ (vector_of self.old index)) }
    {
        self.values[index].negate();
    }

    /// Turns each number into its negative.
    pub fn negate(&mut self)
        ensures size { length self.new ≡ length self.old }
        ensures negated { vector_of self.new ≡ (λ k. neg_ℚ (vector_of self.old k)) }
    {
        for i in 0..self.len() {
            self.negate_at(i);
        }
    }
}

impl Numbers<Frac> {
    /// The fractions, by id.
    pub fn into_fractions(self) -> Vec<Frac>
        ensures { result.items ≡ self }
    {
        self.values
    }
}
