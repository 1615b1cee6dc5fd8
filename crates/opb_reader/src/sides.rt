//! What is left of a right side.

ghost use Rattle.std.specs.Prelude.{◌≡◌, OkIff, IsTrue, reverse};
ghost use Rattle.opb_text.specs.Statements.{left_fits, left_of};

use fractions::Past;
use fractions::whole::Whole;

/// A number less others, one after the other.
///
/// # Errors
/// [`Past`] exactly where a step is past the range.
pub fn left_of(side: Whole, numbers: &[Whole]) -> Result<Whole, Past>
    ensures { OkIff result (IsTrue (left_fits side (reverse numbers.now))) (left_of side (reverse numbers.now)) }
{
    let mut left = side;
    for number in numbers {
        left = left.plus(number.negated())?;
    }
    Ok(left)
}
