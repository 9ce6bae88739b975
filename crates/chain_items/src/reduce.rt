ghost use Rattle.std.specs.Prelude.{◌≡◌, ◌<◌, ◌≤◌, ◌++◌, ◌∷◌, [], pos, All, unsigned_abs, int_div, true, false, Err, OnOk, IfOk, IfSome, IfNone};
ghost use Rattle.linear_model.specs.Forms.{combined, with_pair};
ghost use Rattle.linear_model.specs.Normal.{joint_gcd, divided_pairs, limit};
ghost use Rattle.chain_items.specs.Sparse.{at_most};
ghost use Rattle.chain_items.specs.declared.item.ItemFault.TheVariants.{Overflow};

use crate::item::ItemFault;
use crate::merge::{Step, next_step};
use lin_row::gcd;
use smallvec::SmallVec;
use std::alloc::Global;

/// How many pairs lie in a list itself, without memory of their own.
pub const INLINE: usize = 4;

pub type Pairs = SmallVec<(u32, i64), INLINE>;

/// The greatest common divisor of a number and the coefficients of a combination.
pub fn combined_divisor(
    start: u128,
    a: i64,
    first: &[(u32, i64)],
    b: i64,
    second: &[(u32, i64)],
) -> u128
    requires a_small { unsigned_abs a ≤ limit }
    requires b_small { unsigned_abs b ≤ limit }
    requires first_small { All (λ p. unsigned_abs p.1 ≤ limit) first.now }
    requires second_small { All (λ p. unsigned_abs p.1 ≤ limit) second.now }
    ensures { result ≡ joint_gcd start (combined a first.now b second.now) }
{
    let mut divisor = start;
    let mut i = 0;
    let mut j = 0;
    while divisor != 1 {
        match next_step(a, first, i, b, second, j) {
            Some(next) => {
                divisor = gcd(next.coefficient.unsigned_abs(), divisor);
                i = next.first;
                j = next.second;
            }
            None => return divisor,
        }
    }
    1
}

/// The number divided by the divisor, if that is within the bound.
pub fn quotient(number: i128, divisor: u128, bound: u64) -> Option<i64>
    requires above { 0 < divisor }
    requires small { bound ≤ limit }
    ensures some { IfSome result (λ r. (r ≡ int_div number (pos divisor)) × (unsigned_abs r ≤ bound)) }
    ensures none { IfNone result (bound < unsigned_abs (int_div number (pos divisor))) }
{
    let magnitude = number.unsigned_abs() / divisor;
    if magnitude > bound as u128 {
        return None;
    }
    let magnitude = magnitude as i64;
    if number < 0 {
        Some(-magnitude)
    } else {
        Some(magnitude)
    }
}

/// The pair with its coefficient divided at the end, unless the coefficient is 0.
fn push_quotient(into: &mut Pairs, next: &Step, divisor: u128, bound: u64) -> Result<(), ItemFault>
    requires above { 0 < divisor }
    requires small { bound ≤ limit }
    ensures value { OnOk result (into.new.items ≡ into.old.items ++ divided_pairs (pos divisor) (with_pair next.now.variable next.now.coefficient [])) }
    ensures within { OnOk result (unsigned_abs (int_div next.now.coefficient (pos divisor)) ≤ bound) }
    ensures overflow { result ≡ Err Overflow → bound < unsigned_abs (int_div next.now.coefficient (pos divisor)) }
{
    if next.coefficient == 0 {
        return Ok(());
    }
    let coefficient = quotient(next.coefficient, divisor, bound).ok_or(ItemFault::Overflow)?;
    into.push((next.variable, coefficient))
        .map_err(|_| ItemFault::NoMemory)
}

/// A combination divided by the divisor, if each coefficient is within the bound.
pub fn combined_quotients(
    alloc: Global,
    a: i64,
    first: &[(u32, i64)],
    b: i64,
    second: &[(u32, i64)],
    divisor: u128,
    bound: u64,
) -> Result<Pairs, ItemFault>
    requires a_small { unsigned_abs a ≤ limit }
    requires b_small { unsigned_abs b ≤ limit }
    requires first_small { All (λ p. unsigned_abs p.1 ≤ limit) first.now }
    requires second_small { All (λ p. unsigned_abs p.1 ≤ limit) second.now }
    requires above { 0 < divisor }
    requires small { bound ≤ limit }
    ensures value { IfOk result (λ v. v.items ≡ divided_pairs (pos divisor) (combined a first.now b second.now)) }
    ensures within { IfOk result (λ v. at_most bound v.items ≡ true) }
    ensures overflow { result ≡ Err Overflow → at_most bound (divided_pairs (pos divisor) (combined a first.now b second.now)) ≡ false }
{
    let mut quotients = SmallVec::new(alloc);
    let mut i = 0;
    let mut j = 0;
    loop {
        match next_step(a, first, i, b, second, j) {
            Some(next) => {
                match push_quotient(&mut quotients, &next, divisor, bound) {
                    Ok(()) => {}
                    Err(fault) => return Err(fault),
                }
                i = next.first;
                j = next.second;
            }
            None => return Ok(quotients),
        }
    }
}
