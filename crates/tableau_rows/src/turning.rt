//! A pivot of the rows and the prices.

ghost use Rattle.std.specs.Prelude.{◌≡◌, ◌↔◌, [], length, IsOk, OnOk};
ghost use Rattle.tableau_rows.specs.Turning.{AreTurnable, AreTurned, TurningFits};

use crate::rows::{Row, replace, replace_rows};
use fractions::Past;
use fractions::frac::Frac;
use std::mem::swap;

/// Makes `b`'s row that of `e`, and puts it in the place of `e` in each other row and in the prices. `line` is empty, before and after.
/// Rows are moved and not copied, and a product with a factor 0 is passed over: it is 0, and adds nothing.
///
/// # Errors
/// [`Past`] exactly where a number of it has no room.
pub fn turn_rows(
    rows: &mut Vec<Row>,
    line: &mut Row,
    prices: &mut [Frac],
    b: usize,
    e: usize,
) -> Result<(), Past>
    requires empty { length line.old ≡ 0 }
    requires rows { AreTurnable (length prices.old) b e rows.old.items prices.old }
    ensures value { OnOk result (AreTurned (length prices.old) b e rows.old.items rows.new.items prices.old prices.new) }
    ensures empty { OnOk result (length line.new ≡ 0) }
    ensures fits { IsOk result ↔ TurningFits (length prices.old) b e rows.old.items prices.old }
{
    swap(&mut rows[b], line);
    line.turn(b, e)?;
    replace_rows(rows, line, b, e)?;
    replace(prices, line.as_slice(), b, e)?;
    swap(&mut rows[e], line);
    Ok(())
}
