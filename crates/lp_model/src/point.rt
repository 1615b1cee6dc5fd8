//! Points and duals.

ghost use Rattle.std.specs.Prelude.{◌≡◌};

use fractions::frac::Frac;
use std::marker::Model;

/// A number for each column, by id.
#[derive(Drop)]
pub struct Point {
    values: Vec<Frac>,
}

impl Model for Point {
    ghost use Rattle.std.specs.Prelude.{List};
    ghost use Rattle.std.specs.Coded.{codes};
    ghost use Rattle.fractions.specs.Lowest.{number_code};
    ghost use Rattle.fractions.specs.Number.{Number};

    ghost Value = { List Number };

    ghost coded = { Prim.hlevel (codes, number_code) };

    ghost view = { λ point. point.values.items };
}

impl Point {
    /// The point of these numbers.
    pub fn new(values: Vec<Frac>) -> Point
        ensures { result ≡ values.items }
    {
        Point { values }
    }

    /// The numbers, by column.
    pub fn as_slice(&self) -> &[Frac]
        ensures { result.now ≡ self.now }
    {
        self.values.as_slice()
    }

    /// The same numbers as a vector.
    pub fn into_vec(self) -> Vec<Frac>
        ensures { result.items ≡ self }
    {
        self.values
    }
}

/// A multiplier for each row, by id.
#[derive(Drop)]
pub struct Duals {
    values: Vec<Frac>,
}

impl Model for Duals {
    ghost use Rattle.std.specs.Prelude.{List};
    ghost use Rattle.std.specs.Coded.{codes};
    ghost use Rattle.fractions.specs.Lowest.{number_code};
    ghost use Rattle.fractions.specs.Number.{Number};

    ghost Value = { List Number };

    ghost coded = { Prim.hlevel (codes, number_code) };

    ghost view = { λ duals. duals.values.items };
}

impl Duals {
    /// The duals of these numbers.
    pub fn new(values: Vec<Frac>) -> Duals
        ensures { result ≡ values.items }
    {
        Duals { values }
    }

    /// The numbers, by row.
    pub fn as_slice(&self) -> &[Frac]
        ensures { result.now ≡ self.now }
    {
        self.values.as_slice()
    }

    /// The same numbers as a vector.
    pub fn into_vec(self) -> Vec<Frac>
        ensures { result.items ≡ self }
    {
        self.values
    }
}

/// A point, with duals where they are known.
#[derive(Drop)]
pub struct Pair {
    pub point: Point,
    pub duals: Option<Duals>,
}
