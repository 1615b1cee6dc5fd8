//! What placing, undoing and concluding make of points.

ghost use Rattle.whole_way.specs.WayBack.{BestComesBack, NoneIsLost, PairsComeBack, PlacedIsSpread, PointsComeBack};

/// A point of the reduced program is placed at the original columns as its numbers are spread over the ids of the live labels.
pub fn placed_points_are_spread()
    ensures { PlacedIsSpread }
{}

/// Where presolve concluded with a reduced program and records: each feasible point of the reduced program comes back to a feasible point
/// of the program that costs the offset more; for each feasible point of the program there is a feasible one of the reduced program that is
/// no worse with the offset; so a best point comes back to a best one.
pub fn points_come_back()
    ensures comes_back { PointsComeBack }
    ensures none_lost { NoneIsLost }
    ensures best { BestComesBack }
{}

/// Where no column of the program has to be whole or is semi-continuous, a pair that meets the optimality conditions of the reduced program
/// comes back to one that meets those of the program, at the cost with the offset; and so to a proof that no feasible point is better.
pub fn pairs_come_back()
    ensures { PairsComeBack }
{}
