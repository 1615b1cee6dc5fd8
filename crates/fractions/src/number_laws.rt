//! Laws of the rational numbers of contracts, whose arithmetic, order, lowest terms, floors, decimals, finite sums and ends of ranges are defined
//! in `specs/`. The functions here do nothing when they run: each states laws of those definitions, and its check proves them.

ghost use Rattle.std.specs.Prelude.{◌≡◌, ◌≢◌, ℕ, ◌*◌, ◌/◌, ◌^◌, ◌<◌, ℤ, pos, ◌+ℤ◌, ◌*ℤ◌, ◌≤ℤ◌, unsigned_abs, Option, IsTrue, ◌↔◌, ◌⊎◌};
ghost use Rattle.std.specs.Cmp.{IsTotalOrder};
ghost use Prim.Native.Nat.{◌∣◌};
ghost use Rattle.fractions.specs.Number.{Number, ◌+ℚ◌, ◌-ℚ◌, ◌*ℚ◌, neg_ℚ, of_ℤ, zero_ℚ, one_ℚ};
ghost use Rattle.fractions.specs.Order.{◌≤ℚ◌, ◌<ℚ◌};
ghost use Rattle.fractions.specs.Compare.{le_ℚ, lt_ℚ, eq_ℚ, number_cmp};
ghost use Rattle.fractions.specs.Gcd.{gcd};
ghost use Rattle.fractions.specs.Lowest.{ratio, over_of, under_of};
ghost use Rattle.fractions.specs.Division.{inv_ℚ, ◌/ℚ◌};
ghost use Rattle.fractions.specs.MinMax.{min_ℚ, max_ℚ, abs_ℚ};
ghost use Rattle.fractions.specs.Floor.{floor_of, ceil_of, IsWhole, is_whole};
ghost use Rattle.fractions.specs.Decimal.{HasPlaces};
ghost use Rattle.fractions.specs.Ends.{AtLeast, AtMost, meet_low, meet_high, over};
ghost use Rattle.fractions.specs.Total.{total, put};

/// Sums and products are those of a field.
pub fn numbers_are_a_field()
    ensures sums_commute { (p q : Number) → p +ℚ q ≡ q +ℚ p }
    ensures sums_associate { (p q r : Number) → (p +ℚ q) +ℚ r ≡ p +ℚ (q +ℚ r) }
    ensures nothing_added { (p : Number) → zero_ℚ +ℚ p ≡ p }
    ensures differences { (p : Number) → p -ℚ p ≡ zero_ℚ }
    ensures products_commute { (p q : Number) → p *ℚ q ≡ q *ℚ p }
    ensures products_associate { (p q r : Number) → (p *ℚ q) *ℚ r ≡ p *ℚ (q *ℚ r) }
    ensures times_one { (p : Number) → one_ℚ *ℚ p ≡ p }
    ensures distributes { (p q r : Number) → p *ℚ (q +ℚ r) ≡ p *ℚ q +ℚ p *ℚ r }
    ensures inverses { (p : Number) → p ≢ zero_ℚ → p *ℚ inv_ℚ p ≡ one_ℚ }
{}

/// The order is total, and sums and products keep it.
pub fn numbers_are_ordered()
    ensures transitive { (p q r : Number) → p ≤ℚ q → q ≤ℚ r → p ≤ℚ r }
    ensures antisymmetric { (p q : Number) → p ≤ℚ q → q ≤ℚ p → p ≡ q }
    ensures total { (p q : Number) → (p ≤ℚ q) ⊎ (q <ℚ p) }
    ensures strict { (p q : Number) → p <ℚ q → ¬ (q ≤ℚ p) }
    ensures sums { (p q r s : Number) → p ≤ℚ q → r ≤ℚ s → (p +ℚ r) ≤ℚ (q +ℚ s) }
    ensures products { (c p q : Number) → zero_ℚ ≤ℚ c → p ≤ℚ q → (c *ℚ p) ≤ℚ (c *ℚ q) }
    ensures turned { (c p q : Number) → c ≤ℚ zero_ℚ → p ≤ℚ q → (c *ℚ q) ≤ℚ (c *ℚ p) }
    ensures whole { (a b : ℤ) → (of_ℤ a ≤ℚ of_ℤ b) ↔ (a ≤ℤ b) }
{}

/// The tests of the order say what they are named for, and the comparison is a total order.
pub fn tests_decide_the_order()
    ensures at_most { (p q : Number) → IsTrue (le_ℚ p q) ↔ (p ≤ℚ q) }
    ensures below { (p q : Number) → IsTrue (lt_ℚ p q) ↔ (p <ℚ q) }
    ensures equal { (p q : Number) → IsTrue (eq_ℚ p q) ↔ (p ≡ q) }
    ensures compared { IsTotalOrder number_cmp }
{}

/// The less and the greater of two numbers are one of both, at most both and at least both. The
/// distance from 0 is the number or its negative, and never below 0; that of a sum is at most the
/// sum of the distances, that of a product is their product.
pub fn least_and_greatest_of_two()
    ensures less_one { (p q : Number) → (min_ℚ p q ≡ p) ⊎ (min_ℚ p q ≡ q) }
    ensures less_left { (p q : Number) → min_ℚ p q ≤ℚ p }
    ensures less_right { (p q : Number) → min_ℚ p q ≤ℚ q }
    ensures greater_one { (p q : Number) → (max_ℚ p q ≡ p) ⊎ (max_ℚ p q ≡ q) }
    ensures greater_left { (p q : Number) → p ≤ℚ max_ℚ p q }
    ensures greater_right { (p q : Number) → q ≤ℚ max_ℚ p q }
    ensures distance_one { (q : Number) → (abs_ℚ q ≡ q) ⊎ (abs_ℚ q ≡ neg_ℚ q) }
    ensures distance_not_negative { (q : Number) → zero_ℚ ≤ℚ abs_ℚ q }
    ensures distance_of_sum { (p q : Number) → abs_ℚ (p +ℚ q) ≤ℚ (abs_ℚ p +ℚ abs_ℚ q) }
    ensures distance_of_product { (p q : Number) → abs_ℚ (p *ℚ q) ≡ abs_ℚ p *ℚ abs_ℚ q }
{}

/// A product of two numbers of one sign isn't negative, and of two signs not positive; it is 0 only
/// where one of both is. A quotient by a positive number keeps the order, and one by a negative
/// number turns it.
pub fn signs_of_products_and_quotients()
    ensures alike { (p q : Number) → zero_ℚ ≤ℚ p → zero_ℚ ≤ℚ q → zero_ℚ ≤ℚ (p *ℚ q) }
    ensures both_below { (p q : Number) → p ≤ℚ zero_ℚ → q ≤ℚ zero_ℚ → zero_ℚ ≤ℚ (p *ℚ q) }
    ensures unlike { (p q : Number) → zero_ℚ ≤ℚ p → q ≤ℚ zero_ℚ → (p *ℚ q) ≤ℚ zero_ℚ }
    ensures no_product { (p q : Number) → p *ℚ q ≡ zero_ℚ → (p ≡ zero_ℚ) ⊎ (q ≡ zero_ℚ) }
    ensures strict { (c p q : Number) → zero_ℚ <ℚ c → p <ℚ q → (c *ℚ p) <ℚ (c *ℚ q) }
    ensures strict_turned { (c p q : Number) → c <ℚ zero_ℚ → p <ℚ q → (c *ℚ q) <ℚ (c *ℚ p) }
    ensures quotients { (c p q : Number) → zero_ℚ <ℚ c → p ≤ℚ q → (p /ℚ c) ≤ℚ (q /ℚ c) }
    ensures quotients_turned { (c p q : Number) → c <ℚ zero_ℚ → p ≤ℚ q → (q /ℚ c) ≤ℚ (p /ℚ c) }
{}

/// Each number has one numerator and one positive denominator with no common divisor.
pub fn lowest_terms_are_unique()
    ensures positive { (q : Number) → 0 < under_of q }
    ensures coprime { (q : Number) → gcd (unsigned_abs (over_of q)) (under_of q) ≡ 1 }
    ensures value { (q : Number) → ratio (over_of q) (under_of q) ≡ q }
    ensures alone { (n : ℤ) (d : ℕ) → 0 < d → gcd (unsigned_abs n) d ≡ 1 → (over_of (ratio n d) ≡ n) × (under_of (ratio n d) ≡ d) }
{}

/// A floor is the greatest whole number at or below, a ceiling the least at or above, and a
/// number is whole where its denominator is 1.
pub fn floors_are_greatest()
    ensures floor_below { (q : Number) → of_ℤ (floor_of q) ≤ℚ q }
    ensures floor_greatest { (q : Number) (z : ℤ) → of_ℤ z ≤ℚ q → z ≤ℤ floor_of q }
    ensures ceil_above { (q : Number) → q ≤ℚ of_ℤ (ceil_of q) }
    ensures ceil_least { (q : Number) (z : ℤ) → q ≤ℚ of_ℤ z → ceil_of q ≤ℤ z }
    ensures whole { (q : Number) → IsTrue (is_whole q) ↔ IsWhole q }
{}

/// A number has so many decimals where its denominator divides that power of ten and the digits
/// have room.
pub fn decimals_by_lowest_terms()
    ensures { (q : Number) (k : ℕ) → HasPlaces q k ↔ ((under_of q ∣ (10 ^ k)) × (unsigned_abs (over_of q) * (10 ^ k / under_of q) < 2 ^ 127)) }
{}

/// What is within two ranges is within their ends' meets, and a range of a product is one of the
/// other factor.
pub fn ends_meet()
    ensures low { (p q : Option Number) (x : Number) → AtLeast (meet_low p q) x ↔ (AtLeast p x × AtLeast q x) }
    ensures high { (p q : Option Number) (x : Number) → AtMost (meet_high p q) x ↔ (AtMost p x × AtMost q x) }
    ensures over { (p : Option Number) (a x : Number) → zero_ℚ <ℚ a → AtLeast (over p a) x ↔ AtLeast p (a *ℚ x) }
    ensures turned { (p : Option Number) (a x : Number) → a <ℚ zero_ℚ → AtLeast (over p a) x ↔ AtMost p (a *ℚ x) }
{}

/// A finite sum changes with one of its terms, and two sums can be exchanged.
pub fn sums_change_by_terms()
    ensures changed { (n : ℕ) (f : ℕ → Number) (j : ℕ) (a : Number) → j < n → total n (put f j a) ≡ total n f -ℚ f j +ℚ a }
    ensures exchanged { (n m : ℕ) (f : ℕ → ℕ → Number) → total n (λ j. total m (λ i. f i j)) ≡ total m (λ i. total n (λ j. f i j)) }
{}
