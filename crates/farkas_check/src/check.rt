ghost use Rattle.std.specs.Prelude.{◌≡◌, ◌≤◌, true, length, unsigned_abs, IfNone};
ghost use Rattle.linear_model.specs.Forms.{IsRising};
ghost use Rattle.linear_model.specs.Chain.{multiplier_limit, weights_within};
ghost use Rattle.farkas_check.specs.Checks as spec;

use crate::fault::CheckFault;
use crate::part::Part;
use crate::sum::{coefficient, product, weighted_coefficient, weighted_constant};
use crate::walk::next_variable;
use lin_row::{Rel, Row};

/// Whether the multiplier is below 0, and the row's is not to be.
fn is_negative(row: &Row, multiplier: i64) -> bool
    ensures { result ≡ spec.is_negative row.now multiplier }
{
    match row.rel() {
        Rel::Eq => false,
        Rel::Le | Rel::Lt => multiplier < 0,
    }
}

/// Whether an inequality has a multiplier below 0.
fn any_negative(rows: &[Row], multipliers: &[i64]) -> bool
    requires lengths { length multipliers.now ≡ length rows.now }
    ensures { result ≡ spec.any_negative rows.now multipliers.now }
{
    for i in 0..rows.len() {
        if is_negative(&rows[i], multipliers[i]) {
            return true;
        }
    }
    false
}

/// Whether the row is strict and has a positive multiplier.
fn is_strictly_used(row: &Row, multiplier: i64) -> bool
    ensures { result ≡ spec.is_strictly_used row.now multiplier }
{
    match row.rel() {
        Rel::Eq | Rel::Le => false,
        Rel::Lt => multiplier > 0,
    }
}

/// Whether a strict row has a positive multiplier.
fn strict_used(rows: &[Row], multipliers: &[i64]) -> bool
    requires lengths { length multipliers.now ≡ length rows.now }
    ensures { result ≡ spec.strict_used rows.now multipliers.now }
{
    for i in 0..rows.len() {
        if is_strictly_used(&rows[i], multipliers[i]) {
            return true;
        }
    }
    false
}

/// Whether the variable has the same coefficient in the weighted sum of the rows and in k times the pairs.
fn cancels_at(
    rows: &[Row],
    multipliers: &[i64],
    k: i64,
    pairs: &[(u32, i64)],
    variable: u32,
) -> bool
    requires lengths { length multipliers.now ≡ length rows.now }
    requires few { length rows.now ≤ 128 }
    requires within { weights_within multipliers.now ≡ true }
    requires rising { IsRising pairs.now }
    ensures { result ≡ spec.cancels_at rows.now multipliers.now k pairs.now variable }
{
    weighted_coefficient(rows, multipliers, variable) == product(k, coefficient(pairs, variable))
}

/// Whether each variable has: then the weighted sum of the rows less k times the pairs is a constant.
fn cancels(rows: &[Row], multipliers: &[i64], k: i64, pairs: &[(u32, i64)]) -> bool
    requires lengths { length multipliers.now ≡ length rows.now }
    requires few { length rows.now ≤ 128 }
    requires within { weights_within multipliers.now ≡ true }
    requires rising { IsRising pairs.now }
    ensures { result ≡ spec.cancels rows.now multipliers.now k pairs.now }
{
    let mut from = 0;
    while let Some(variable) = next_variable(from, rows, pairs) {
        if !cancels_at(rows, multipliers, k, pairs, variable) {
            return false;
        }
        from = variable as u64 + 1;
    }
    true
}

/// Whether the sum is above what is needed, or equal where a strict row is used or that is allowed.
fn is_enough(sum: i128, needed: i128, strict_used: bool, allows_equal: bool) -> bool
    ensures { result ≡ spec.is_enough sum needed strict_used allows_equal }
{
    needed < sum || (sum == needed && (strict_used || allows_equal))
}

/// The fault of the weighted sum of the rows less k times the pairs and the constant.
fn sum_fault(
    rows: &[Row],
    multipliers: &[i64],
    k: i64,
    pairs: &[(u32, i64)],
    constant: i64,
    allows_equal: bool,
) -> Option<CheckFault>
    requires lengths { length multipliers.now ≡ length rows.now }
    requires few { length rows.now ≤ 128 }
    requires within { weights_within multipliers.now ≡ true }
    requires rising { IsRising pairs.now }
    ensures { result ≡ spec.sum_fault rows.now multipliers.now k pairs.now constant allows_equal }
{
    if !cancels(rows, multipliers, k, pairs) {
        return Some(CheckFault::NotConstant);
    }
    let sum = weighted_constant(rows, multipliers);
    let needed = product(k, constant);
    if !is_enough(sum, needed, strict_used(rows, multipliers), allows_equal) {
        return Some(CheckFault::WrongSign);
    }
    None
}

/// The fault of the multipliers by themselves.
fn weights_fault(rows: &[Row], part: &Part) -> Option<CheckFault>
    ensures value { result ≡ spec.weights_fault rows.now part.now }
    ensures counted { IfNone result (length part.now.m ≡ length rows.now) }
{
    let multipliers = part.multipliers();
    if multipliers.len() != rows.len() {
        return Some(CheckFault::Count);
    }
    if part.k() < 0 || any_negative(rows, multipliers) {
        return Some(CheckFault::Negative);
    }
    None
}

/// The multiplier with which the row's own sum gives its side.
fn oriented(k: i64, is_flipped: bool) -> i64
    requires { unsigned_abs k ≤ multiplier_limit }
    ensures { result ≡ spec.oriented is_flipped k }
{
    if is_flipped { -k } else { k }
}

/// Whether nothing need be left of the constants.
fn allows_equal(rel: Rel, k: i64) -> bool
    ensures { result ≡ spec.allows_equal rel k }
{
    match rel {
        Rel::Eq | Rel::Lt => false,
        Rel::Le => k > 0,
    }
}

/// The first fault of a part that is to show the target's sum, or its opposite, under the relation.
pub fn side_fault(
    rows: &[Row],
    rel: Rel,
    is_flipped: bool,
    target: &Row,
    part: &Part,
) -> Option<CheckFault>
    requires few { length rows.now ≤ 128 }
    ensures { result ≡ spec.check_fault rows.now (spec.side is_flipped rel target.now) part.now }
{
    match weights_fault(rows, part) {
        Some(fault) => Some(fault),
        None => {
            let k = part.k();
            sum_fault(
                rows,
                part.multipliers(),
                oriented(k, is_flipped),
                target.pairs(),
                target.constant(),
                allows_equal(rel, k),
            )
        }
    }
}

/// The first fault of a part that is to show `0 < 0`.
pub fn never_fault(rows: &[Row], part: &Part) -> Option<CheckFault>
    requires few { length rows.now ≤ 128 }
    ensures { result ≡ spec.check_fault rows.now spec.never part.now }
{
    match weights_fault(rows, part) {
        Some(fault) => Some(fault),
        None => sum_fault(rows, part.multipliers(), part.k(), &[], 0, false),
    }
}
