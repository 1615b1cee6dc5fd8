//! Exact numbers of a kind: what sums, lifts and checks ask of them, whatever their width.
//!
//! An operation may be refused: a [`Frac`] has no room for each number, and numbers of any width want memory. When a number has room in its
//! kind is defined in the specs of `fractions`.
#![tactic(auto)]

ghost use Rattle.std.specs.Prelude.{◌≡◌, ◌≢◌, IfOk, IfErr, IsOk, IsTrue, ◌↔◌};
ghost use Rattle.fractions.specs.Number.{Number, zero_ℚ, neg_ℚ, ◌+ℚ◌, ◌-ℚ◌, ◌*ℚ◌};
ghost use Rattle.fractions.specs.Division.{◌/ℚ◌};
ghost use Rattle.fractions.specs.Compare.{le_ℚ, lt_ℚ, eq_ℚ};
ghost use Rattle.fractions.specs.Floor.{is_whole};
ghost use Rattle.fractions.specs.Room.{Room};
ghost use Rattle.exact_numbers.specs.Nothing.{AddsNothing};

mod numbers;
mod words;

use fractions::frac::Frac;
pub use numbers::Numbers;
use std::alloc::Global;

/// Exact numbers of a kind. What is asked of a result goes by the numbers alone, and so does a refusal for want of room.
pub trait Exact: Drop {
    /// Why a number is not given.
    type Refusal: Copy;

    /// The number that a value stands for.
    ghost number: { Self → Number };

    /// When numbers and sums have room in this kind.
    ghost room: { Room };

    /// The refusal says that there is no room, and not that memory is wanting.
    ghost is_past: { Self.Refusal → Type 0 };

    /// Whether a refusal says that there is no room. Else memory is wanting.
    fn says_past(why: Self::Refusal) -> bool
        ensures { IsTrue result ↔ is_past why };

    /// The number 0.
    fn zero() -> Self
        ensures value { number result ≡ zero_ℚ }
        ensures kept { room.number (number result) };

    /// A number that has room in a [`Frac`].
    fn of(given: &Frac) -> Self
        ensures value { number result ≡ given.now }
        ensures kept { room.number (number result) };

    /// The sum.
    ///
    /// # Errors
    /// Where it has no room in this kind, or there is no memory for it.
    fn plus(&self, alloc: Global, other: &Self) -> Result<Self, Self::Refusal>
        ensures value { IfOk result (λ r. number r ≡ number self.now +ℚ number other.now) }
        ensures kept { IfOk result (λ r. room.number (number r)) }
        ensures fits { IsOk result → room.sum (number self.now) (number other.now) }
        ensures past { IfErr result (λ why. is_past why → room.sum (number self.now) (number other.now) → ⊥) };

    /// The difference, as the sum with the negative.
    ///
    /// # Errors
    /// Where it has no room in this kind, or there is no memory for it.
    fn minus(&self, alloc: Global, other: &Self) -> Result<Self, Self::Refusal>
        ensures value { IfOk result (λ r. number r ≡ number self.now -ℚ number other.now) }
        ensures kept { IfOk result (λ r. room.number (number r)) }
        ensures fits { IsOk result → room.sum (number self.now) (neg_ℚ (number other.now)) }
        ensures past { IfErr result (λ why. is_past why → room.sum (number self.now) (neg_ℚ (number other.now)) → ⊥) };

    /// The product with a fraction.
    ///
    /// # Errors
    /// Where it has no room in this kind, or there is no memory for it.
    fn scaled(&self, alloc: Global, factor: &Frac) -> Result<Self, Self::Refusal>
        ensures value { IfOk result (λ r. number r ≡ factor.now *ℚ number self.now) }
        ensures kept { IfOk result (λ r. room.number (number r)) }
        ensures fits { IsOk result → room.number (factor.now *ℚ number self.now) }
        ensures past { IfErr result (λ why. is_past why → room.number (factor.now *ℚ number self.now) → ⊥) };

    /// The quotient by a fraction.
    ///
    /// # Errors
    /// Where it has no room in this kind, or there is no memory for it.
    fn over(&self, alloc: Global, divisor: &Frac) -> Result<Self, Self::Refusal>
        requires { divisor.now ≢ zero_ℚ }
        ensures value { IfOk result (λ r. number r ≡ number self.now /ℚ divisor.now) }
        ensures kept { IfOk result (λ r. room.number (number r)) }
        ensures fits { IsOk result → room.number (number self.now /ℚ divisor.now) }
        ensures past { IfErr result (λ why. is_past why → room.number (number self.now /ℚ divisor.now) → ⊥) };

    /// The product with the quotient of two fractions.
    ///
    /// # Errors
    /// Where the quotient or the product has no room in this kind, or there is no memory for it.
    fn scaled_by_quotient(
        &self,
        alloc: Global,
        over: &Frac,
        under: &Frac,
    ) -> Result<Self, Self::Refusal>
        requires { under.now ≢ zero_ℚ }
        ensures value { IfOk result (λ r. number r ≡ (over.now /ℚ under.now) *ℚ number self.now) }
        ensures kept { IfOk result (λ r. room.number (number r)) }
        ensures fits { IsOk result → room.number (over.now /ℚ under.now) × room.number ((over.now /ℚ under.now) *ℚ number self.now) }
        ensures past { IfErr result (λ why. is_past why → room.number (over.now /ℚ under.now) × room.number ((over.now /ℚ under.now) *ℚ number self.now) → ⊥) };

    /// The number once more.
    ///
    /// # Errors
    /// Where there is no memory for it.
    fn copied(&self, alloc: Global) -> Result<Self, Self::Refusal>
        ensures value { IfOk result (λ r. number r ≡ number self.now) }
        ensures kept { IfOk result (λ r. room.number (number r)) }
        ensures past { IfErr result (λ why. is_past why → ⊥) };

    /// Turns the number into its negative.
    fn negate(&mut self)
        ensures value { number self.new ≡ neg_ℚ (number self.old) };

    /// Whether it is at most another.
    fn is_at_most(&self, other: &Self) -> bool
        ensures { result ≡ le_ℚ (number self.now) (number other.now) };

    /// Whether it is the same number as a fraction.
    fn is_fraction(&self, other: &Frac) -> bool
        ensures test { result ≡ eq_ℚ (number self.now) other.now }
        ensures same { IsTrue result ↔ (number self.now ≡ other.now) };

    /// Whether it is less than a fraction.
    fn is_below(&self, other: &Frac) -> bool
        ensures { result ≡ lt_ℚ (number self.now) other.now };

    /// Whether it is greater than a fraction.
    fn is_above(&self, other: &Frac) -> bool
        ensures { result ≡ lt_ℚ other.now (number self.now) };

    /// Whether it is greater than 0.
    fn is_positive(&self) -> bool
        ensures { result ≡ lt_ℚ zero_ℚ (number self.now) };

    /// Whether it is less than 0.
    fn is_negative(&self) -> bool
        ensures { result ≡ lt_ℚ (number self.now) zero_ℚ };

    /// Whether it is a whole number.
    fn is_whole(&self) -> bool
        ensures { result ≡ is_whole (number self.now) };

    /// 0 has room, and so has a sum with 0 where its other number has.
    ghost adds_nothing: { AddsNothing room };
}
