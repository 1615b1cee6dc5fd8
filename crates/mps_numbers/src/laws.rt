//! A law of the definitions that the contracts cite. The function is empty: its contract is the law.

ghost use Rattle.std.specs.Prelude.{IsTrue, ◌↔◌};
ghost use Rattle.fractions.specs.Number.{Number};
ghost use Rattle.fractions.specs.FracWords.{SumFits};
ghost use Rattle.mps_profile.specs.Sides.{sum_fits};

/// The test of a sum's room holds of exactly the sums whose steps are all in range.
pub fn test_finds_room()
    ensures { (p q : Number) → IsTrue (sum_fits p q) ↔ SumFits p q }
{}
