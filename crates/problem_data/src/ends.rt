//! Changes of the sides of one row and of the bounds of one column. Neither changes how often a part has changed.

ghost use Rattle.std.specs.Prelude.{◌≡◌};
ghost use Rattle.problem_model.specs.Edits.{bounds_moved, sides_moved};

use fractions::ext::Ext;
use problem_model::{Bounds, Sides};

/// Gives sides these ends.
pub fn move_sides(sides: &mut Sides, lower: Ext, upper: Ext)
    ensures { sides.new ≡ sides_moved sides.old lower upper }
{
    sides.lower = lower;
    sides.upper = upper;
}

/// Gives bounds these ends.
pub fn move_bounds(bounds: &mut Bounds, lower: Ext, upper: Ext)
    ensures { bounds.new ≡ bounds_moved bounds.old lower upper }
{
    bounds.lower = lower;
    bounds.upper = upper;
}
