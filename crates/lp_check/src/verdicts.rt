//! Verdicts on points.

use fractions::frac::Frac;

/// What of a program is looked at by itself.
#[derive(Clone, Copy, Debug, PartialEq, Eq)]
pub enum Item {
    /// The column with this id: its bounds, and that it is whole where it has to be.
    Column(u32),
    /// The row with this id: its sides.
    Row(u32),
    /// The cost.
    Cost,
}

/// What a value breaks.
#[derive(Clone, Copy, Debug, PartialEq, Eq)]
pub enum Limit {
    /// It is below this lower end.
    Below(Frac),
    /// It is above this upper end.
    Above(Frac),
    /// It is not whole and has to be.
    NotWhole,
}

/// What is said of a point, by numbers of a kind. The limits are the program's own.
#[derive(Clone, Copy, Debug, PartialEq, Eq, Drop)]
pub enum Verdict<T> {
    /// It meets the program, at this cost in the file's sense.
    Yes { cost: T },
    /// The value of this item breaks this limit. No item before it does.
    No { item: Item, value: T, limit: Limit },
    /// The sum of this item has no room in the kind of numbers. No item before it decides.
    Past { item: Item },
}
