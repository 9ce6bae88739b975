ghost use Rattle.std.specs.Prelude.{max, if◌then◌else◌, neg_ℤ, ◌≡◌, ◌≤◌, ◌≢◌, ◌+◌, ◌*◌, ◌%◌, ◌^◌, pos, All, unsigned_abs, int_div, nat_eq, ◌&&◌};
ghost use Rattle.std.specs.Ordering.{int_eq};
ghost use Rattle.linear_model.specs.Gcd as spec;
ghost use Rattle.linear_model.specs.Normal.{joint_gcd, first_is_negative, is_flipped, divided_pairs, pairs_eq, rel_eq, limit, divided, row_eq};
ghost use Rattle.chain_items.specs.Items.{row_of, normal_divisor};
ghost use Rattle.chain_items.specs.Keys as keys;

use clp_model::Rel;

/// An odd number near 2^64 divided by the golden ratio (Knuth, The Art of Computer Programming, 6.4).
const FACTOR: u64 = 11_400_714_819_323_198_485;

/// The greatest common divisor, by Euclid's algorithm; of 0 and 0 it is 0.
pub fn gcd(a: u64, b: u64) -> u64
    ensures { result ≡ spec.gcd a b }
{
    let mut x = a;
    let mut y = b;
    while y != 0 {
        let rest = x % y;
        x = y;
        y = rest;
    }
    x
}

/// The greatest common divisor of a number and the coefficients.
fn joint(start: u64, pairs: &[(u32, i64)]) -> u64
    ensures { result ≡ joint_gcd start pairs.now }
{
    let mut divisor = start;
    for p in pairs {
        divisor = gcd(p.1.unsigned_abs(), divisor);
    }
    divisor
}

/// The greatest common divisor of a row's coefficients and constant, at least 1.
#[tactic(auto, using(crate::proofs::Divisors::divisor_small, crate::proofs::Divisors::as_signed))]
fn row_divisor(pairs: &[(u32, i64)], constant: i64) -> i64
    requires pairs_small { All (λ p. unsigned_abs p.1 ≤ limit) pairs.now }
    requires constant_small { unsigned_abs constant ≤ limit }
    ensures value { result ≡ pos (max 1 (joint_gcd (unsigned_abs constant) pairs.now)) }
    ensures small { unsigned_abs result ≤ limit }
{
    joint(constant.unsigned_abs(), pairs).max(1) as i64
}

fn first_is_negative(pairs: &[(u32, i64)]) -> bool
    ensures { result ≡ first_is_negative pairs.now }
{
    match pairs.first() {
        Some(p) => p.1 < 0,
        None => false,
    }
}

fn is_flipped(rel: Rel, pairs: &[(u32, i64)]) -> bool
    ensures { result ≡ is_flipped rel pairs.now }
{
    match rel {
        Rel::Eq => first_is_negative(pairs),
        Rel::Le | Rel::Lt => false,
    }
}

/// The number or its opposite.
pub fn signed(is_flipped: bool, divisor: i64) -> i64
    requires { unsigned_abs divisor ≤ limit }
    ensures { result ≡ (if is_flipped then neg_ℤ divisor else divisor) }
{
    if is_flipped { -divisor } else { divisor }
}

/// What a row is divided by for its normal form.
pub fn normal_divisor(rel: Rel, pairs: &[(u32, i64)], constant: i64) -> i64
    requires pairs_small { All (λ p. unsigned_abs p.1 ≤ limit) pairs.now }
    requires constant_small { unsigned_abs constant ≤ limit }
    ensures value { result ≡ normal_divisor (row_of rel pairs.now constant) }
    ensures not_zero { result ≢ pos 0 }
{
    signed(is_flipped(rel, pairs), row_divisor(pairs, constant))
}

/// One more number in a hash.
fn mixed(hash: u64, n: u64) -> u64
    ensures { result ≡ keys.mixed hash n }
{
    hash.wrapping_add(n).wrapping_mul(FACTOR)
}

/// One more number with its sign in a hash.
fn mixed_number(hash: u64, number: i64) -> u64
    ensures { result ≡ keys.mixed_number hash number }
{
    mixed(mixed(hash, number.unsigned_abs()), (number < 0) as u64)
}

fn quotient(number: i64, divisor: i64) -> i64
    requires small { unsigned_abs number ≤ limit }
    requires not_zero { divisor ≢ pos 0 }
    ensures { result ≡ int_div number divisor }
{
    number / divisor
}

/// One more pair, divided, in a hash.
fn mixed_pair(hash: u64, p: &(u32, i64), divisor: i64) -> u64
    requires small { unsigned_abs p.now.1 ≤ limit }
    requires not_zero { divisor ≢ pos 0 }
    ensures { result ≡ keys.mixed_number (keys.mixed hash p.now.0) (int_div p.now.1 divisor) }
{
    mixed_number(mixed(hash, p.0 as u64), quotient(p.1, divisor))
}

fn rel_number(rel: Rel) -> u64
    ensures { result ≡ keys.rel_number rel }
{
    match rel {
        Rel::Eq => 0,
        Rel::Le => 1,
        Rel::Lt => 2,
    }
}

/// The hash of a row that is divided by the divisor.
pub fn row_hash(rel: Rel, pairs: &[(u32, i64)], constant: i64, divisor: i64) -> u64
    requires pairs_small { All (λ p. unsigned_abs p.1 ≤ limit) pairs.now }
    requires constant_small { unsigned_abs constant ≤ limit }
    requires not_zero { divisor ≢ pos 0 }
    ensures { result ≡ keys.row_hash (divided divisor (row_of rel pairs.now constant)) }
{
    let mut hash = rel_number(rel);
    for p in pairs {
        hash = mixed_pair(hash, p, divisor);
    }
    mixed_number(hash, quotient(constant, divisor))
}

fn same_number(x: i64, y: i64) -> bool
    ensures { result ≡ int_eq x y }
{
    x == y
}

/// Whether two numbers are the same, each divided.
pub fn same_quotient(x: i64, divisor: i64, y: i64, other_divisor: i64) -> bool
    requires x_small { unsigned_abs x ≤ limit }
    requires y_small { unsigned_abs y ≤ limit }
    requires not_zero { divisor ≢ pos 0 }
    requires other_not_zero { other_divisor ≢ pos 0 }
    ensures { result ≡ int_eq (int_div x divisor) (int_div y other_divisor) }
{
    same_number(quotient(x, divisor), quotient(y, other_divisor))
}

/// Whether two pairs are the same, each divided.
fn same_pair(p: &(u32, i64), divisor: i64, q: &(u32, i64), other_divisor: i64) -> bool
    requires p_small { unsigned_abs p.now.1 ≤ limit }
    requires q_small { unsigned_abs q.now.1 ≤ limit }
    requires not_zero { divisor ≢ pos 0 }
    requires other_not_zero { other_divisor ≢ pos 0 }
    ensures { result ≡ (nat_eq p.now.0 q.now.0 && int_eq (int_div p.now.1 divisor) (int_div q.now.1 other_divisor)) }
{
    p.0 == q.0 && same_quotient(p.1, divisor, q.1, other_divisor)
}

/// Whether two lists of pairs are the same, each divided.
pub fn same_pairs(
    pairs: &[(u32, i64)],
    divisor: i64,
    others: &[(u32, i64)],
    other_divisor: i64,
) -> bool
    requires pairs_small { All (λ p. unsigned_abs p.1 ≤ limit) pairs.now }
    requires others_small { All (λ p. unsigned_abs p.1 ≤ limit) others.now }
    requires not_zero { divisor ≢ pos 0 }
    requires other_not_zero { other_divisor ≢ pos 0 }
    ensures { result ≡ pairs_eq (divided_pairs divisor pairs.now) (divided_pairs other_divisor others.now) }
{
    let mut i = 0;
    loop {
        match (pairs.get(i), others.get(i)) {
            (Some(p), Some(q)) => {
                if !same_pair(p, divisor, q, other_divisor) {
                    return false;
                }
                i += 1;
            }
            (None, None) => return true,
            _ => return false,
        }
    }
}

pub fn same_rel(a: Rel, b: Rel) -> bool
    ensures { result ≡ rel_eq a b }
{
    match (a, b) {
        (Rel::Eq, Rel::Eq) | (Rel::Le, Rel::Le) | (Rel::Lt, Rel::Lt) => true,
        _ => false,
    }
}
