//! The factors by which two coefficients cancel.

ghost use Rattle.std.specs.Prelude.{◌≡◌, ◌≢◌, ◌≤◌, ◌≤ℤ◌, pos, unsigned_abs};
ghost use Rattle.linear_model.specs.Forms.{coefficient};
ghost use Rattle.linear_model.specs.Normal.{limit};
ghost use Rattle.linear_model.specs.Elimination as spec;
ghost use Rattle.lin_row.specs.Rows.{IsKept};

use lin_row::{Rel, Row, gcd};

/// The least positive factors that make two coefficients equal in magnitude: each is the other's magnitude over
/// their greatest common divisor. Neither is 0, and both magnitudes are at most 2^63 - 1. It takes no memory.
pub fn factors(a: i64, b: i64) -> (i64, i64)
    requires a_not_zero { a ≢ pos 0 }
    requires b_not_zero { b ≢ pos 0 }
    requires a_small { unsigned_abs a ≤ limit }
    requires b_small { unsigned_abs b ≤ limit }
    ensures first { result.0 ≡ pos (spec.factors a b).0 }
    ensures second { result.1 ≡ pos (spec.factors a b).1 }
    ensures first_small { (spec.factors a b).0 ≤ limit }
    ensures second_small { (spec.factors a b).1 ≤ limit }
{
    let a = a.unsigned_abs();
    let b = b.unsigned_abs();
    let divisor = gcd(a as u128, b as u128) as u64;
    ((b / divisor) as i64, (a / divisor) as i64)
}

/// The coefficient of the variable, at most 2^63 - 1 in magnitude.
#[tactic(auto, using(crate::proofs::Coefficients::coefficient_small))]
pub fn coefficient_of(row: &Row, var: u32) -> i64
    ensures value { result ≡ coefficient row.now.pairs var }
    ensures kept { IsKept row.now }
    ensures small { unsigned_abs result ≤ limit }
{
    // What is known of a row's parts bounds its coefficients.
    let _ = row.rel();
    row.coefficient(var)
}

/// The opposite of the factor where the coefficients have one sign, else the factor.
pub fn opposed(a: i64, b: i64, factor: i64) -> i64
    requires not_negative { pos 0 ≤ℤ factor }
    ensures value { result ≡ spec.opposed a b (unsigned_abs factor) }
    ensures small { unsigned_abs result ≡ unsigned_abs factor }
{
    if (a < 0) == (b < 0) { -factor } else { factor }
}

/// `<` where one of the two is.
pub fn stricter(first: Rel, second: Rel) -> Rel
    ensures { result ≡ spec.stricter first second }
{
    match (first, second) {
        (Rel::Lt, _) | (_, Rel::Lt) => Rel::Lt,
        (Rel::Eq, other) => other,
        (Rel::Le, _) => Rel::Le,
    }
}
