//! Numbers in format strings.

ghost use Rattle.std.specs.Prelude.{◌≡◌, ◌^◌, ◌<◌, ◌≤◌, Some};
ghost use Rattle.std.specs.Fmt.{WritesOnOk};
ghost use Rattle.fractions.specs.Places.{place_of};
ghost use Rattle.number_texts.specs.Written.{sign_of, size_text, with_point, written};

use crate::writing::decimals;
use fractions::frac::Frac;
use fractions::places::{place, power};
use fractions::whole::Whole;
use itoa::Buffer;
use std::fmt;

/// A number that prints as its one text, as `{}` of `Displayed(&number)`: the bytes that
/// [`write`](crate::write) gives.
#[derive(Clone, Copy, Debug)]
pub struct Displayed<'a>(pub &'a Frac);

impl fmt::Display for Displayed<'_> {
    ghost output = { λ d. Some (written d.0.now) };

    #[tactic(auto, unfolding(crate::specs::Written::written, crate::specs::Written::written_by))]
    fn fmt<W: fmt::Write>(&self, f: &mut fmt::Formatter<W>) -> fmt::Result {
        let parts = self.0.parts();
        show_sign(f, parts.num)?;
        show_size(f, parts.num.size(), parts.den)
    }
}

/// Writes the sign, if it is a minus.
fn show_sign<W: fmt::Write>(f: &mut fmt::Formatter<W>, number: Whole) -> fmt::Result
    ensures { WritesOnOk W.write_str_gives f.old result (sign_of number) f.new }
{
    if number.is_negative() {
        f.write_str("-")?;
    }
    Ok(())
}

/// Writes `over / under`, with the least number of decimals that shows it exactly, or else as it
/// stands.
fn show_size<W: fmt::Write>(f: &mut fmt::Formatter<W>, over: u128, under: u128) -> fmt::Result
    requires { 0 < under }
    ensures { WritesOnOk W.write_str_gives f.old result (size_text over under (place_of over under)) f.new }
{
    match place(over, under) {
        Some(places) => show_point(f, over * (power(places) / under), places),
        None => write!(f, "{over}/{under}"),
    }
}

/// Writes `number / 10 ^ places` with exactly `places` decimals.
fn show_point<W: fmt::Write>(f: &mut fmt::Formatter<W>, number: u128, places: u32) -> fmt::Result
    requires { places ≤ 38 }
    ensures { WritesOnOk W.write_str_gives f.old result (with_point number places) f.new }
{
    if places == 0 {
        return write!(f, "{number}");
    }
    let unit = power(places);
    let whole = number / unit;
    let mut buffer = Buffer::new();
    let decimals = decimals(&mut buffer, number % unit, places);
    write!(f, "{whole}.{decimals}")
}
