ghost use Rattle.std.specs.Prelude.{◌≡◌, ◌<◌, ◌≤◌, ◌*ℤ◌, ◌+ℤ◌, ℤ, pos, unsigned_abs, int_div, IfSome, IfNone};
ghost use Rattle.linear_model.specs.Normal.{limit};

/// The greatest numerator and denominator.
pub const LIMIT: u128 = 9_223_372_036_854_775_807;

/// The product, which needs at most 126 bits and a sign.
pub fn product(a: i64, b: i64) -> i128
    ensures value { result ≡ a *ℤ b }
{
    a as i128 * b as i128
}

/// A numerator over the other fraction's denominator.
fn scaled(a: i64, x: u64) -> i128
    requires { x ≤ limit }
    ensures value { result ≡ a *ℤ pos x }
{
    a as i128 * x as i128
}

/// The numerator of a sum of fractions, which never wraps where all four magnitudes are below 2^63.
#[tactic(auto, using(crate::proofs::Sums::sum_fits, crate::proofs::Sums::sum_exact))]
pub fn cross_sum(a: i64, x: u64, b: i64, y: u64) -> i128
    requires a_small { unsigned_abs a ≤ limit }
    requires x_small { x ≤ limit }
    requires b_small { unsigned_abs b ≤ limit }
    requires y_small { y ≤ limit }
    ensures value { result ≡ a *ℤ pos x +ℤ b *ℤ pos y }
{
    scaled(a, x) + scaled(b, y)
}

/// The number divided by the divisor, towards 0, if that is within the limit.
pub fn divided(number: i128, divisor: u128) -> Option<i64>
    requires { 0 < divisor }
    ensures some { IfSome result (λ r. (r ≡ int_div number (pos divisor)) × (unsigned_abs r ≤ limit)) }
    ensures none { IfNone result (limit < unsigned_abs (int_div number (pos divisor))) }
{
    let quotient = number.unsigned_abs() / divisor;
    if quotient > LIMIT {
        return None;
    }
    let quotient = quotient as i64;
    if number < 0 {
        Some(-quotient)
    } else {
        Some(quotient)
    }
}
