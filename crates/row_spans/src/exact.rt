//! Exact sums, differences, products and quotients, or that a number has no room.

ghost use Rattle.std.specs.Prelude.{◌≡◌, ◌≢◌, IfOk};
ghost use Rattle.fractions.specs.Number.{zero_ℚ, ◌*ℚ◌};
ghost use Rattle.fractions.specs.Ends.{scaled};
ghost use Rattle.row_spans.specs.Exact.{exact_sum, exact_difference, exact_product, exact_quotient, exact_end};

use fractions::Past;
use fractions::ext::Ext;
use fractions::frac::Frac;

/// The sum.
///
/// # Errors
/// [`Past`] exactly where a step has no room.
pub fn sum(a: &Frac, b: &Frac) -> Result<Frac, Past>
    ensures { result ≡ exact_sum a.now b.now }
{
    a.add(b)
}

/// The difference, as the sum with the negative.
///
/// # Errors
/// [`Past`] exactly where a step has no room.
pub fn difference(a: &Frac, b: &Frac) -> Result<Frac, Past>
    ensures { result ≡ exact_difference a.now b.now }
{
    a.sub(b)
}

/// The product.
///
/// # Errors
/// [`Past`] exactly where it has no room.
pub fn product(a: &Frac, b: &Frac) -> Result<Frac, Past>
    ensures exact { result ≡ exact_product a.now b.now }
    ensures value { IfOk result (λ r. r ≡ a.now *ℚ b.now) }
{
    a.mul(b)
}

/// The quotient.
///
/// # Errors
/// [`Past`] exactly where it has no room.
pub fn quotient(a: &Frac, b: &Frac) -> Result<Frac, Past>
    requires { b.now ≢ zero_ℚ }
    ensures { result ≡ exact_quotient a.now b.now }
{
    a.div(b)
}

/// A number times an end. No end stays none.
///
/// # Errors
/// [`Past`] exactly where the product has no room.
pub fn scaled_end(factor: &Frac, end: &Ext) -> Result<Ext, Past>
    ensures exact { result ≡ exact_end (scaled factor.now end.now) }
    ensures value { IfOk result (λ e. e ≡ scaled factor.now end.now) }
{
    match end.number() {
        None => Ok(Ext::none()),
        Some(number) => Ok(Ext::at(product(factor, &number)?)),
    }
}
