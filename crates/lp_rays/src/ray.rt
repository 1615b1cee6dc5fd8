//! The numbers of a ray.

ghost use Rattle.std.specs.Prelude.{◌≡◌, ℕ, ◌<◌, length, replicate, IfOk};
ghost use Rattle.fractions.specs.Number.{zero_ℚ};
ghost use Rattle.fractions.specs.Total.{put};
ghost use Rattle.lp_model.specs.Vectors.{vector_of};
ghost use Rattle.lp_rays.specs.RayData.{IsSized, weights_of};
ghost use Rattle.lp_rays.specs.Starts.{no_weights};

use fractions::frac::Frac;
use std::alloc::{AllocError, Global};
use std::marker::Model;

/// Weights of the lower and the upper side of each row, and of the lower and the upper bound of each column, by id.
#[derive(Drop)]
pub struct Ray {
    lower_sides: Vec<Frac>,
    upper_sides: Vec<Frac>,
    lower_bounds: Vec<Frac>,
    upper_bounds: Vec<Frac>,
}

impl Model for Ray {
    ghost use Rattle.std.specs.Coded.{codes};
    ghost use Rattle.fractions.specs.Lowest.{number_code};
    ghost use Rattle.lp_rays.specs.RayData.{RayData};

    ghost Value = { RayData };

    ghost coded = { Prim.hlevel (codes, number_code) };

    ghost view = { λ r. record { lower_sides = r.lower_sides.items; upper_sides = r.upper_sides.items; lower_bounds = r.lower_bounds.items; upper_bounds = r.upper_bounds.items } };
}

/// So many zeros.
fn zeros(alloc: Global, count: usize) -> Result<Vec<Frac>, AllocError>
    ensures { IfOk result (λ numbers. numbers.items ≡ replicate count zero_ℚ) }
{
    let mut numbers = Vec::with_capacity(alloc, count)?;
    for _ in 0..count {
        numbers.push(Frac::zero())?;
    }
    Ok(numbers)
}

/// The number at an id.
fn number_of(numbers: &[Frac], id: u32) -> Frac
    requires { id < length numbers.now }
    ensures { result ≡ vector_of numbers.now id }
{
    numbers[id as usize]
}

/// Sets the number at an id.
fn set_number(numbers: &mut [Frac], id: u32, number: Frac)
    requires { id < length numbers.old }
    ensures size { length numbers.new ≡ length numbers.old }
    ensures value { vector_of numbers.new ≡ put (vector_of numbers.old) id number }
{
    numbers[id as usize] = number;
}

impl Ray {
    /// The ray of these numbers.
    pub fn new(
        lower_sides: Vec<Frac>,
        upper_sides: Vec<Frac>,
        lower_bounds: Vec<Frac>,
        upper_bounds: Vec<Frac>,
    ) -> Ray
        ensures { result ≡ record { lower_sides = lower_sides.items; upper_sides = upper_sides.items; lower_bounds = lower_bounds.items; upper_bounds = upper_bounds.items } }
    {
        Ray {
            lower_sides,
            upper_sides,
            lower_bounds,
            upper_bounds,
        }
    }

    /// No weights, for so many rows and columns.
    #[tactic(auto, using(crate::proofs::Weights::vector_of_zeros))]
    pub fn without_weights(alloc: Global, rows: usize, columns: usize) -> Result<Ray, AllocError>
        ensures sized { IfOk result (λ ray. IsSized rows columns ray) }
        ensures none { IfOk result (λ ray. weights_of ray ≡ no_weights) }
    {
        let lower_sides = zeros(alloc, rows)?;
        let upper_sides = zeros(alloc, rows)?;
        let lower_bounds = zeros(alloc, columns)?;
        let upper_bounds = zeros(alloc, columns)?;
        Ok(Ray {
            lower_sides,
            upper_sides,
            lower_bounds,
            upper_bounds,
        })
    }

    /// The weights of the lower sides, by row.
    pub fn lower_sides(&self) -> &[Frac]
        ensures { result.now ≡ self.now.lower_sides }
    {
        self.lower_sides.as_slice()
    }

    /// The weights of the upper sides, by row.
    pub fn upper_sides(&self) -> &[Frac]
        ensures { result.now ≡ self.now.upper_sides }
    {
        self.upper_sides.as_slice()
    }

    /// The weights of the lower bounds, by column.
    pub fn lower_bounds(&self) -> &[Frac]
        ensures { result.now ≡ self.now.lower_bounds }
    {
        self.lower_bounds.as_slice()
    }

    /// The weights of the upper bounds, by column.
    pub fn upper_bounds(&self) -> &[Frac]
        ensures { result.now ≡ self.now.upper_bounds }
    {
        self.upper_bounds.as_slice()
    }

    /// The weight of a row's lower side.
    pub fn lower_side(&self, row: u32) -> Frac
        requires { row < length self.now.lower_sides }
        ensures { result ≡ vector_of self.now.lower_sides row }
    {
        number_of(self.lower_sides.as_slice(), row)
    }

    /// The weight of a row's upper side.
    pub fn upper_side(&self, row: u32) -> Frac
        requires { row < length self.now.upper_sides }
        ensures { result ≡ vector_of self.now.upper_sides row }
    {
        number_of(self.upper_sides.as_slice(), row)
    }

    /// The weight of a column's lower bound.
    pub fn lower_bound(&self, column: u32) -> Frac
        requires { column < length self.now.lower_bounds }
        ensures { result ≡ vector_of self.now.lower_bounds column }
    {
        number_of(self.lower_bounds.as_slice(), column)
    }

    /// The weight of a column's upper bound.
    pub fn upper_bound(&self, column: u32) -> Frac
        requires { column < length self.now.upper_bounds }
        ensures { result ≡ vector_of self.now.upper_bounds column }
    {
        number_of(self.upper_bounds.as_slice(), column)
    }

    /// Sets the weight of a row's lower side.
    pub fn set_lower_side(&mut self, row: u32, weight: Frac)
        requires { row < length self.old.lower_sides }
        ensures size { length self.new.lower_sides ≡ length self.old.lower_sides }
        ensures lower_side { vector_of self.new.lower_sides ≡ put (vector_of self.old.lower_sides) row weight }
        ensures upper_sides { self.new.upper_sides ≡ self.old.upper_sides }
        ensures lower_bounds { self.new.lower_bounds ≡ self.old.lower_bounds }
        ensures upper_bounds { self.new.upper_bounds ≡ self.old.upper_bounds }
    {
        set_number(self.lower_sides.as_mut_slice(), row, weight);
    }

    /// Sets the weight of a row's upper side.
    pub fn set_upper_side(&mut self, row: u32, weight: Frac)
        requires { row < length self.old.upper_sides }
        ensures size { length self.new.upper_sides ≡ length self.old.upper_sides }
        ensures upper_side { vector_of self.new.upper_sides ≡ put (vector_of self.old.upper_sides) row weight }
        ensures lower_sides { self.new.lower_sides ≡ self.old.lower_sides }
        ensures lower_bounds { self.new.lower_bounds ≡ self.old.lower_bounds }
        ensures upper_bounds { self.new.upper_bounds ≡ self.old.upper_bounds }
    {
        set_number(self.upper_sides.as_mut_slice(), row, weight);
    }

    /// Sets the weights of a row's sides.
    pub fn set_sides(&mut self, row: u32, lower: Frac, upper: Frac)
        requires lower { row < length self.old.lower_sides }
        requires upper { row < length self.old.upper_sides }
        ensures lower_size { length self.new.lower_sides ≡ length self.old.lower_sides }
        ensures upper_size { length self.new.upper_sides ≡ length self.old.upper_sides }
        ensures lower_side { vector_of self.new.lower_sides ≡ put (vector_of self.old.lower_sides) row lower }
        ensures upper_side { vector_of self.new.upper_sides ≡ put (vector_of self.old.upper_sides) row upper }
        ensures lower_bounds { self.new.lower_bounds ≡ self.old.lower_bounds }
        ensures upper_bounds { self.new.upper_bounds ≡ self.old.upper_bounds }
    {
        set_number(self.lower_sides.as_mut_slice(), row, lower);
        set_number(self.upper_sides.as_mut_slice(), row, upper);
    }

    /// Sets the weights of a column's bounds.
    pub fn set_bounds(&mut self, column: u32, lower: Frac, upper: Frac)
        requires lower { column < length self.old.lower_bounds }
        requires upper { column < length self.old.upper_bounds }
        ensures lower_size { length self.new.lower_bounds ≡ length self.old.lower_bounds }
        ensures upper_size { length self.new.upper_bounds ≡ length self.old.upper_bounds }
        ensures lower_bound { vector_of self.new.lower_bounds ≡ put (vector_of self.old.lower_bounds) column lower }
        ensures upper_bound { vector_of self.new.upper_bounds ≡ put (vector_of self.old.upper_bounds) column upper }
        ensures lower_sides { self.new.lower_sides ≡ self.old.lower_sides }
        ensures upper_sides { self.new.upper_sides ≡ self.old.upper_sides }
    {
        set_number(self.lower_bounds.as_mut_slice(), column, lower);
        set_number(self.upper_bounds.as_mut_slice(), column, upper);
    }
}
