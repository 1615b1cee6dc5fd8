//! The number of decimals that shows a number exactly.

ghost use Rattle.std.specs.Prelude.{◌≡◌, ℕ, ◌^◌, ◌<◌, ◌≤◌, ◌*◌, ◌/◌, IfSome, IsTrue, ◌↔◌};
ghost use Rattle.fractions.specs.Number.{Number};
ghost use Rattle.fractions.specs.Decimal.{HasPlaces, Decimal};
ghost use Rattle.fractions.specs.Places.{has_room, place_of, places_of, is_decimal};

use crate::frac::Frac;

/// 10 to the power of `k`.
pub fn power(k: u32) -> u128
    requires { k ≤ 38 }
    ensures value { result ≡ 10 ^ k }
    ensures small { result < 2 ^ 127 }
    ensures positive { 0 < result }
{
    10u128.pow(k)
}

/// Whether `over / under` is shown exactly by `places` decimals, and its digits stay below 2^127.
#[tactic(auto, unfolding(crate::specs::Places::has_room))]
fn has_room(over: u128, under: u128, places: u32) -> bool
    requires positive { 0 < under }
    requires small { places ≤ 38 }
    ensures { result ≡ has_room over under places }
{
    let unit = power(places);
    if unit % under != 0 {
        return false;
    }
    match over.checked_mul(unit / under) {
        Some(product) => product < 1 << 127,
        None => false,
    }
}

/// The least number of decimals, from 0 to 38, that shows `over / under` exactly, if one does.
pub fn place(over: u128, under: u128) -> Option<u32>
    requires { 0 < under }
    ensures value { result ≡ place_of over under }
    ensures few { IfSome result (λ k. k ≤ 38) }
    ensures room { IfSome result (λ k. over * (10 ^ k / under) < 2 ^ 127) }
{
    // Where 38 decimals are too few, so are all that are fewer.
    if under != 1 && power(38) % under != 0 {
        return None;
    }
    for k in 0..39 {
        if has_room(over, under, k) {
            return Some(k);
        }
    }
    None
}

/// Whether some number of decimals from 0 to 38 shows a number exactly, with digits below 2^127.
#[tactic(auto, unfolding(crate::specs::Places::is_decimal))]
pub fn is_decimal(number: &Frac) -> bool
    ensures value { result ≡ is_decimal number.now }
    ensures says { IsTrue result ↔ Decimal number.now }
{
    let parts = number.parts();
    place(parts.num.size(), parts.den).is_some()
}

/// The test of decimal numbers, a search, holds of exactly the decimal numbers.
pub fn test_finds_decimals()
    ensures found { (q : Number) → IsTrue (is_decimal q) → Decimal q }
    ensures all { (q : Number) → Decimal q → IsTrue (is_decimal q) }
{}

/// The number of decimals that is found is the least of 0 to 38 that the number has, and none is
/// found where it has none of these.
pub fn places_are_least()
    ensures found { (q : Number) (k : ℕ) → places_of q ≡ Some k →
        (k ≤ 38) × HasPlaces q k × ((i : ℕ) → i < k → ¬ (HasPlaces q i)) }
    ensures missing { (q : Number) → places_of q ≡ None → (i : ℕ) → i ≤ 38 → ¬ (HasPlaces q i) }
{}
