ghost use Rattle.std.specs.Prelude.{◌≡◌, ◌<◌, ◌≤◌, ◌*ℤ◌, ◌+ℤ◌, pos, true, false, All, Err, IfOk, OnOk, unsigned_abs, int_div};
ghost use Rattle.linear_model.specs.Forms.{combined};
ghost use Rattle.linear_model.specs.Normal.{divided_pairs, limit};
ghost use Rattle.linear_model.specs.Chain.{multiplier_limit};
ghost use Rattle.chain_items.specs.Sparse.{at_most};
ghost use Rattle.chain_items.specs.Items.{joint_divisor, IsPast, AreQuotients, IsPastRange};
ghost use Rattle.chain_items.specs.declared.item.ItemFault.TheVariants.{Overflow};

use crate::item::ItemFault;
use crate::merge::product_sum;
use crate::reduce::{Pairs, combined_divisor, combined_quotients, quotient};
use std::alloc::Global;

/// The greatest magnitude of a coefficient or a constant.
const LIMIT: u64 = 9_223_372_036_854_775_807;

/// The greatest magnitude of a multiplier.
const MULTIPLIER_LIMIT: u64 = 72_057_594_037_927_935;

/// The numbers of an item: coefficients, constant, and the multipliers that are not 0.
#[derive(Clone, Copy)]
pub struct Numbers<'a> {
    pub pairs: &'a [(u32, i64)],
    pub constant: i64,
    pub weights: &'a [(u32, i64)],
}

/// The joint divisor of a combination's constant, coefficients and multipliers, at least 1.
fn joint_divisor(a: i64, first: &Numbers<'_>, b: i64, second: &Numbers<'_>) -> u128
    requires a_small { unsigned_abs a ≤ limit }
    requires b_small { unsigned_abs b ≤ limit }
    requires first_small { All (λ p. unsigned_abs p.1 ≤ limit) first.now.pairs.now }
    requires second_small { All (λ p. unsigned_abs p.1 ≤ limit) second.now.pairs.now }
    requires first_constant { unsigned_abs first.now.constant ≤ limit }
    requires second_constant { unsigned_abs second.now.constant ≤ limit }
    requires first_weights { All (λ p. unsigned_abs p.1 ≤ limit) first.now.weights.now }
    requires second_weights { All (λ p. unsigned_abs p.1 ≤ limit) second.now.weights.now }
    ensures value { result ≡ joint_divisor a first.now.constant b second.now.constant
        (combined a first.now.pairs.now b second.now.pairs.now) (combined a first.now.weights.now b second.now.weights.now) }
    ensures positive { 0 < result }
{
    let constant = product_sum(a, first.constant, b, second.constant).unsigned_abs();
    let divisor = combined_divisor(constant, a, first.pairs, b, second.pairs);
    combined_divisor(divisor, a, first.weights, b, second.weights).max(1)
}

/// The numbers of a combination after its division.
#[derive(Drop)]
pub struct Quotients {
    pub pairs: Pairs,
    pub constant: i64,
    pub weights: Pairs,
}

/// a times the first and b times the second, divided by the divisor. It is `Overflow` exactly where a number of that is out of its range.
fn divided(
    alloc: Global,
    a: i64,
    first: &Numbers<'_>,
    b: i64,
    second: &Numbers<'_>,
    divisor: u128,
) -> Result<Quotients, ItemFault>
    requires a_small { unsigned_abs a ≤ limit }
    requires b_small { unsigned_abs b ≤ limit }
    requires first_small { All (λ p. unsigned_abs p.1 ≤ limit) first.now.pairs.now }
    requires second_small { All (λ p. unsigned_abs p.1 ≤ limit) second.now.pairs.now }
    requires first_constant { unsigned_abs first.now.constant ≤ limit }
    requires second_constant { unsigned_abs second.now.constant ≤ limit }
    requires first_weights { All (λ p. unsigned_abs p.1 ≤ limit) first.now.weights.now }
    requires second_weights { All (λ p. unsigned_abs p.1 ≤ limit) second.now.weights.now }
    requires positive { 0 < divisor }
    ensures pairs { IfOk result (λ q. q.pairs.items ≡ divided_pairs (pos divisor) (combined a first.now.pairs.now b second.now.pairs.now)) }
    ensures constant { IfOk result (λ q. q.constant ≡ int_div (a *ℤ first.now.constant +ℤ b *ℤ second.now.constant) (pos divisor)) }
    ensures weights { IfOk result (λ q. q.weights.items ≡ divided_pairs (pos divisor) (combined a first.now.weights.now b second.now.weights.now)) }
    ensures pairs_within { IfOk result (λ q. at_most limit q.pairs.items ≡ true) }
    ensures constant_within { IfOk result (λ q. unsigned_abs q.constant ≤ limit) }
    ensures weights_within { IfOk result (λ q. at_most multiplier_limit q.weights.items ≡ true) }
    ensures overflow { result ≡ Err Overflow → IsPast (int_div (a *ℤ first.now.constant +ℤ b *ℤ second.now.constant) (pos divisor))
        (divided_pairs (pos divisor) (combined a first.now.pairs.now b second.now.pairs.now))
        (divided_pairs (pos divisor) (combined a first.now.weights.now b second.now.weights.now)) }
{
    let Some(constant) = quotient(
        product_sum(a, first.constant, b, second.constant),
        divisor,
        LIMIT,
    ) else {
        return Err(ItemFault::Overflow);
    };
    let pairs = match combined_quotients(alloc, a, first.pairs, b, second.pairs, divisor, LIMIT) {
        Ok(pairs) => pairs,
        Err(fault) => return Err(fault),
    };
    match combined_quotients(
        alloc,
        a,
        first.weights,
        b,
        second.weights,
        divisor,
        MULTIPLIER_LIMIT,
    ) {
        Ok(weights) => Ok(Quotients {
            pairs,
            constant,
            weights,
        }),
        Err(fault) => Err(fault),
    }
}

/// a times the first and b times the second, divided by their joint divisor. It is `Overflow` exactly where a number
/// of that is out of its range.
pub fn combination(
    alloc: Global,
    a: i64,
    first: &Numbers<'_>,
    b: i64,
    second: &Numbers<'_>,
) -> Result<Quotients, ItemFault>
    requires a_small { unsigned_abs a ≤ limit }
    requires b_small { unsigned_abs b ≤ limit }
    requires first_small { All (λ p. unsigned_abs p.1 ≤ limit) first.now.pairs.now }
    requires second_small { All (λ p. unsigned_abs p.1 ≤ limit) second.now.pairs.now }
    requires first_constant { unsigned_abs first.now.constant ≤ limit }
    requires second_constant { unsigned_abs second.now.constant ≤ limit }
    requires first_weights { All (λ p. unsigned_abs p.1 ≤ limit) first.now.weights.now }
    requires second_weights { All (λ p. unsigned_abs p.1 ≤ limit) second.now.weights.now }
    ensures made { IfOk result (λ q. AreQuotients a b first.now.pairs.now first.now.constant first.now.weights.now
        second.now.pairs.now second.now.constant second.now.weights.now q.pairs.items q.constant q.weights.items) }
    ensures overflow { result ≡ Err Overflow → IsPastRange a b first.now.pairs.now first.now.constant first.now.weights.now
        second.now.pairs.now second.now.constant second.now.weights.now }
{
    let divisor = joint_divisor(a, first, b, second);
    divided(alloc, a, first, b, second, divisor)
}
