//! The row of a form.

ghost use Rattle.std.specs.Prelude.{◌≡◌, ◌<◌, ◌≤◌, ◌*◌, ◌/◌, false, nat_eq, length, IfSome, IfNone, IfOk, IfErr};
ghost use Rattle.std.specs.List.{IsDistinct};
ghost use Rattle.std.specs.List.Sorted.{IsPermutation, IsNonDecreasingBy};
ghost use Rattle.indexmap.specs.IndexMap.{keys};
ghost use Rattle.clp_rationals.specs.Fraction.{IsLowest};
ghost use Rattle.linear_model.specs.Forms.{is_zero};
ghost use Rattle.std.specs.Map.{keys_of};
ghost use Rattle.linear_model.specs.Normal.{limit, normal, is_within};
ghost use Rattle.lin_row.specs.Rows.{row_of, nonzero, VariablesRise, IsKept};
ghost use Rattle.form_model.specs.Forms as spec;
ghost use Rattle.form_model.specs.declared.fault.FormFault.{FormFault};
ghost use Rattle.form_model.specs.declared.fault.FormFault.TheVariants.{TooLarge};
ghost use Rattle.linear_form.specs.Faults.{fault};
ghost use Rattle.form_model.specs.Forms.{AreLowest};
ghost use Rattle.linear_form.specs.Ranges.{AreBounded};

use crate::error::FormError;
use crate::terms::{Terms, term_at};
use form_model::FormFault;
use frac128::Frac;
use lin_row::{Rel, Row, RowFault, gcd};
use std::alloc::Global;

/// The greatest number of a row.
const LIMIT: u128 = 9_223_372_036_854_775_807;

/// The greatest common denominator of a form whose row is in range: each part is at most the limit times its own
/// denominator.
const BOUND: u128 = 85_070_591_730_234_615_847_396_907_784_232_501_249;

/// The least common multiple, if it is within the bound.
fn lcm(n: u128, den: u64) -> Option<u128>
    requires positive { 0 < den }
    ensures some { IfSome result (λ r. (r ≡ spec.lcm n den) × (r ≤ limit * limit)) }
    ensures none { IfNone result (limit * limit < spec.lcm n den) }
{
    let den = den as u128;
    let share = n / gcd(n, den);
    if share > BOUND / den {
        return None;
    }
    Some(share * den)
}

/// The denominator.
pub(crate) fn den(f: Frac) -> u64
    ensures value { result ≡ f.den }
    ensures positive { 0 < f.den }
{
    f.den() as u64
}

/// The least common multiple of the number and all denominators, if it is within the bound.
pub(crate) fn joint_den(n: u64, terms: &Terms) -> Option<u128>
    requires positive { 0 < n }
    requires small { n ≤ limit }
    requires lowest { AreLowest terms.now.entries }
    ensures some { IfSome result (λ r. (r ≡ spec.joint_den n terms.now.entries) × (r ≤ limit * limit)) }
    ensures none { IfNone result (limit * limit < spec.joint_den n terms.now.entries) }
    ensures distinct { IsDistinct nat_eq (keys terms.now) }
{
    let mut joint = n as u128;
    for i in 0..terms.len() {
        let (_, coefficient) = term_at(terms, i);
        match lcm(joint, den(coefficient)) {
            Some(next) => joint = next,
            None => return None,
        }
    }
    Some(joint)
}

/// The number that the fraction becomes over the common denominator, or none if the row is out of range.
pub(crate) fn cleared(f: Frac, common: u128) -> Option<i128>
    ensures some { IfSome result (λ r. r ≡ spec.cleared common f) }
    ensures none { IfNone result ((is_zero f.num ≡ false) × (limit < common / f.den)) }
{
    if f.is_zero() {
        return Some(0);
    }
    let factor = common / den(f) as u128;
    if factor > LIMIT {
        return None;
    }
    Some(f.num() as i128 * factor as i128)
}

/// Each variable with the number that its coefficient becomes over the common denominator.
pub(crate) fn cleared_terms(
    alloc: Global,
    terms: &Terms,
    common: u128,
) -> Result<Vec<(u32, i128)>, FormError>
    ensures value { IfOk result (λ v. v.items ≡ spec.cleared_terms common terms.now.entries) }
    ensures distinct { IsDistinct nat_eq (keys terms.now) }
    ensures fault { (f : FormFault) → result ≡ Err (fault f) → (f ≡ TooLarge) × (AreBounded common terms.now.entries → ⊥) }
{
    let mut pairs = Vec::with_capacity(alloc, terms.len())?;
    for i in 0..terms.len() {
        let (variable, coefficient) = term_at(terms, i);
        match cleared(coefficient, common) {
            Some(number) => pairs.push((variable, number))?,
            None => return Err(FormError::Fault(FormFault::TooLarge)),
        }
    }
    Ok(pairs)
}

/// Sorts pairs by their variables.
fn sort_by_variable(pairs: &mut [(u32, i128)])
    ensures exchanged { IsPermutation pairs.old pairs.new }
    ensures sorted { IsNonDecreasingBy (λ p. p.0) pairs.new }
    ensures len { length pairs.new ≡ length pairs.old }
{
    pairs.sort_unstable_by_key(|p| p.0);
}

/// The pairs by rising variables.
fn sorted(mut pairs: Vec<(u32, i128)>) -> Vec<(u32, i128)>
    requires distinct { IsDistinct nat_eq (keys_of pairs.items) }
    ensures rise { VariablesRise result.items }
    ensures value { nonzero result.items ≡ spec.in_order pairs.items }
{
    sort_by_variable(pairs.as_mut_slice());
    pairs
}

/// The normal form of the row of these pairs, or TooLarge where a number of it is above the limit.
pub(crate) fn row_of_pairs(
    alloc: Global,
    rel: Rel,
    pairs: Vec<(u32, i128)>,
    constant: i128,
) -> Result<Row, FormError>
    requires distinct { IsDistinct nat_eq (keys_of pairs.items) }
    ensures value { IfOk result (λ r. r ≡ normal (row_of rel (spec.in_order pairs.items) constant)) }
    ensures kept { IfOk result IsKept }
    ensures fault { (f : FormFault) → result ≡ Err (fault f) → (f ≡ TooLarge) × (is_within (normal (row_of rel (spec.in_order pairs.items) constant)) ≡ false) }
{
    let pairs = sorted(pairs);
    match Row::make(alloc, rel, pairs.as_slice(), constant) {
        Ok(row) => Ok(row),
        Err(RowFault::Overflow) => Err(FormError::Fault(FormFault::TooLarge)),
        Err(RowFault::NoMemory) => Err(FormError::NoMemory),
    }
}
