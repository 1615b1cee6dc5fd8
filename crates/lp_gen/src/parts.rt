//! Names and numbers of a program's parts.

ghost use Rattle.std.specs.Prelude.{◌≡◌, ◌∷◌, ◌<◌, ◌^◌, false, pos, ◌-ℤ◌, IfOk};
ghost use Rattle.std.specs.Fmt.{decimal};
ghost use Rattle.fractions.specs.Number.{of_ℤ};
ghost use Rattle.lp_model.specs.Name.{is_break};
ghost use Rattle.lp_gen.specs.Columns.{whole};

use fractions::frac::Frac;
use fractions::whole::Whole;
use itoa::Buffer;
use lp_model::Name;
use std::alloc::{AllocError, Global};

/// A whole number.
pub fn whole(number: u32) -> Frac
    ensures { result ≡ whole number }
{
    Frac::whole(Whole::natural(u128::from(number)))
}

/// The first number less the second one.
pub fn difference(first: u32, second: u32) -> Frac
    ensures { result ≡ of_ℤ (pos first -ℤ pos second) }
{
    Frac::whole(Whole::new(i128::from(first) - i128::from(second)))
}

/// A letter with a number behind it, as a name. The letter is no space, tab or line feed.
///
/// # Errors
///
/// Where there is no memory.
pub fn numbered(alloc: Global, letter: u8, number: u32) -> Result<Name, AllocError>
    requires { is_break letter ≡ false }
    ensures { IfOk result (λ name. name ≡ letter ∷ decimal number) }
{
    let mut buffer = Buffer::new();
    let mut bytes = Vec::from_slice(alloc, &[letter])?;
    bytes.extend_from_slice(buffer.format(number).as_bytes())?;
    Ok(Name::new(bytes))
}
