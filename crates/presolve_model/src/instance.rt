//! Rules, and their instances at rows and columns.

use undo_records::Side;

/// A rule, in the order in which instances are listed.
#[derive(Clone, Copy, Debug, PartialEq, Eq)]
pub enum Rule {
    /// V1 of columns: crossed bounds.
    CrossedBounds,
    /// V1 of rows: crossed sides.
    CrossedSides,
    /// V2: a row of which a side is out of reach of its columns' bounds.
    InfeasibleRow,
    /// V3: a column that can move without end, which pays.
    UnboundedColumn,
    /// K1: a row without entries is deleted.
    EmptyRow,
    /// K2: a row with one entry becomes bounds of that entry's column.
    SingletonRow,
    /// K3: a column with equal bounds is put into the sides of its rows.
    FixedColumn,
    /// K4: the bounds of a whole column are rounded inwards.
    RoundedBounds,
    /// K5: a row whose sides its columns' bounds keep is deleted.
    RedundantRow,
    /// K6: of two sides of a row the one that its columns' bounds keep becomes infinite.
    RedundantSide,
    /// K7: a row that only just reaches a side is deleted, and its columns are fixed at the ends that reach it.
    ForcingRow,
    /// K8: a bound of a column becomes the one that a row implies with the bounds of its other columns.
    BoundTightening,
    /// K9: the coefficient of a whole column in a row with one side comes closer to 0, and the side moves with it.
    CoefficientTightening,
    /// K10: a column that no row locks where it costs least is fixed there.
    DualFixing,
    /// K11: a column that another one can stand in for stays at its lower bound.
    DominatedColumn,
    /// K12: a column of an equation of two is put elsewhere by the other one.
    DoubletonEquation,
    /// K13: a continuous column with one entry, whose bounds its row implies, leaves with the row.
    FreeColumnSingleton,
    /// K14: a continuous column with one entry leaves as a slack of its row.
    SlackColumnSingleton,
    /// K15: a row that is a multiple of another one gives its sides to it.
    ParallelRows,
    /// K16: a column that is a multiple of another one joins it.
    ParallelColumns,
    /// K17: a column without entries is fixed where it costs least.
    EmptyColumn,
}

/// Where the first id of an instance is, seen from a part that it reads. So a round knows where to look when the part has changed.
#[derive(Clone, Copy, Debug, PartialEq, Eq)]
pub enum Reach {
    /// It is the row of the part.
    OwnRow,
    /// It is the column of the part.
    OwnColumn,
    /// It is a row: that of the part, or one in which the column stands whose bounds the part is.
    RowsOfBounds,
    /// It is a column: that of the part, or one that stands in the row whose sides the part is. Of ends only the form is looked at.
    ColumnsOfSides,
    /// It is a row: that of the part, one in which the column of the part stands, or one of a column that stands in the row whose sides the
    /// part is. Of ends only the form is looked at.
    RowsOfBoth,
    /// It is a column with one entry: that of the part, or one that stands in a row to which the part leads: that of the part, or one in which
    /// the column stands whose bounds the part is.
    SoleColumns,
    /// It is a row: that of the part, or one that is a multiple of it.
    RowsBeside,
    /// It is a column: that of the part, or one that is a multiple of it.
    ColumnsBeside,
}

/// A rule that changes the problem, at rows and columns by original id.
#[derive(Clone, Copy, Debug, PartialEq, Eq)]
pub enum Reduction {
    /// K1.
    EmptyRow { row: u32 },
    /// K2.
    SingletonRow { row: u32 },
    /// K3.
    FixedColumn { column: u32 },
    /// K4.
    RoundedBounds { column: u32 },
    /// K5.
    RedundantRow { row: u32 },
    /// K6.
    RedundantSide { row: u32 },
    /// K7.
    ForcingRow { row: u32 },
    /// K8: the bound on a side of `column`, by `row`.
    BoundTightening { row: u32, column: u32, side: Side },
    /// K9: the coefficient of `column` in `row`.
    CoefficientTightening { row: u32, column: u32 },
    /// K10.
    DualFixing { column: u32 },
    /// K11: in a row that has both, `better` stands in for `column`.
    DominatedColumn { row: u32, better: u32, column: u32 },
    /// K12: `row` puts `other` in the place of `column`.
    DoubletonEquation { row: u32, column: u32, other: u32 },
    /// K13: `column` leaves with `row`.
    FreeColumnSingleton { column: u32, row: u32 },
    /// K14: `column` leaves as a slack of `row`.
    SlackColumnSingleton { column: u32, row: u32 },
    /// K15: `row` gives its sides to `other`.
    ParallelRows { row: u32, other: u32 },
    /// K16: `column` joins `other`.
    ParallelColumns { column: u32, other: u32 },
    /// K17.
    EmptyColumn { column: u32 },
}

/// A rule that decides the problem, at a row or a column by original id.
#[derive(Clone, Copy, Debug, PartialEq, Eq)]
pub enum Verdict {
    /// V1 at a column: no point is between its bounds.
    CrossedBounds { column: u32 },
    /// V1 at a row: no value is between its sides.
    CrossedSides { row: u32 },
    /// V2 at a row: no point within the bounds of its columns gives it a value between its sides.
    InfeasibleRow { row: u32 },
    /// V3 at a column: each feasible point, if there is one, gives others of any cost.
    UnboundedColumn { column: u32 },
}

/// A rule at a row or a column.
#[derive(Clone, Copy, Debug, PartialEq, Eq)]
pub enum Instance {
    /// It changes the problem.
    Reduction(Reduction),
    /// It decides the problem.
    Verdict(Verdict),
}
