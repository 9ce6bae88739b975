ghost use Rattle.std.specs.Prelude.{◌≡◌, ◌<◌, ◌≤◌, ◌++◌, [], ◌∷◌, true, false, pos, Err, IfOk, IfSome, IfNone, OnOk, length, unsigned_abs, int_div, int_lt};
ghost use Rattle.linear_model.specs.Forms.{is_zero, with_pair, IsRising};
ghost use Rattle.linear_model.specs.Gcd.{gcd};
ghost use Rattle.linear_model.specs.Normal as spec;
ghost use Rattle.linear_model.specs.Normal.{normal, is_within, joint_gcd, limit, divisor_of, divided_pairs, pairs_within};
ghost use Rattle.lin_row.specs.Rows.{row_of, IsKept};
ghost use Rattle.lin_row.specs.declared.row.RowFault.TheVariants.{Overflow, NoMemory};

use crate::euclid::gcd;
use crate::row::{INLINE, Row, RowFault};
use crate::source::Source;
use clp_model::Rel;
use smallvec::SmallVec;
use std::alloc::Global;

/// The greatest magnitude of a coefficient or a constant.
const LIMIT: u128 = 9_223_372_036_854_775_807;

/// The greatest common divisor of the coefficient and the divisor so far.
fn shared(p: &(u32, i128), divisor: u128) -> u128
    ensures { result ≡ gcd (unsigned_abs p.now.1) divisor }
{
    gcd(p.1.unsigned_abs(), divisor)
}

/// The greatest common divisor of the constant and all coefficients.
fn joint<S: Source>(constant: i128, source: &S) -> u128
    ensures { result ≡ joint_gcd (unsigned_abs constant) (S.rest source.now 0 0) }
{
    let mut divisor = constant.unsigned_abs();
    let mut i = 0;
    let mut j = 0;
    while let Some(sum) = source.at(i, j) {
        divisor = shared(&sum.pair, divisor);
        i = sum.i;
        j = sum.j;
    }
    divisor
}

/// Whether the coefficient is below 0, if it is not 0.
fn sign(p: &(u32, i128)) -> Option<bool>
    ensures some { IfSome result (λ b. (is_zero p.now.1 ≡ false) × (b ≡ int_lt p.now.1 (pos 0))) }
    ensures none { IfNone result (is_zero p.now.1 ≡ true) }
{
    if p.1 == 0 { None } else { Some(p.1 < 0) }
}

/// Whether the first coefficient that is not 0 is below 0.
fn first_is_negative<S: Source>(source: &S) -> bool
    ensures { result ≡ spec.first_is_negative (S.rest source.now 0 0) }
{
    let mut i = 0;
    let mut j = 0;
    while let Some(sum) = source.at(i, j) {
        if let Some(is_negative) = sign(&sum.pair) {
            return is_negative;
        }
        i = sum.i;
        j = sum.j;
    }
    false
}

/// Whether the normal form has the opposite signs.
fn is_flipped<S: Source>(rel: Rel, source: &S) -> bool
    ensures { result ≡ spec.is_flipped rel (S.rest source.now 0 0) }
{
    match rel {
        Rel::Eq => first_is_negative(source),
        Rel::Le | Rel::Lt => false,
    }
}

/// The number divided by the divisor, or by its opposite, if that is within the limit.
fn divided(number: i128, divisor: u128, is_flipped: bool) -> Option<i64>
    requires { 0 < divisor }
    ensures some { IfSome result (λ r. (r ≡ int_div number (divisor_of is_flipped divisor)) × (unsigned_abs r ≤ limit)) }
    ensures none { IfNone result (limit < unsigned_abs (int_div number (divisor_of is_flipped divisor))) }
{
    let quotient = number.unsigned_abs() / divisor;
    if quotient > LIMIT {
        return None;
    }
    let quotient = quotient as i64;
    if (number < 0) != is_flipped {
        Some(-quotient)
    } else {
        Some(quotient)
    }
}

/// The pair at the end with its coefficient divided by the divisor or by its opposite, unless that is 0, or
/// `Overflow` where the quotient is out of range.
fn push_divided(
    into: &mut SmallVec<(u32, i64), INLINE>,
    p: &(u32, i128),
    divisor: u128,
    is_flipped: bool,
) -> Result<(), RowFault>
    requires { 0 < divisor }
    ensures value { OnOk result (into.new.items ≡ into.old.items ++ divided_pairs (divisor_of is_flipped divisor) (with_pair p.now.0 p.now.1 [])) }
    ensures within { OnOk result (pairs_within (divided_pairs (divisor_of is_flipped divisor) (with_pair p.now.0 p.now.1 [])) ≡ true) }
    ensures overflow { result ≡ Err Overflow → pairs_within (divided_pairs (divisor_of is_flipped divisor) (with_pair p.now.0 p.now.1 [])) ≡ false }
    ensures full { result ≡ Err NoMemory → (into.old.capacity ≤ length into.old.items) × (is_zero p.now.1 ≡ false) }
    ensures capacity { into.old.capacity ≤ into.new.capacity }
{
    if p.1 == 0 {
        return Ok(());
    }
    let quotient = divided(p.1, divisor, is_flipped).ok_or(RowFault::Overflow)?;
    into.push((p.0, quotient)).map_err(|_| RowFault::NoMemory)
}

/// The coefficients divided by the divisor or by its opposite, or `Overflow` where one is out of range.
fn divided_all<S: Source>(
    alloc: Global,
    source: &S,
    divisor: u128,
    is_flipped: bool,
) -> Result<SmallVec<(u32, i64), INLINE>, RowFault>
    requires { 0 < divisor }
    ensures value { IfOk result (λ v. v.items ≡ divided_pairs (divisor_of is_flipped divisor) (S.rest source.now 0 0)) }
    ensures within { IfOk result (λ v. pairs_within v.items ≡ true) }
    ensures overflow { result ≡ Err Overflow → pairs_within (divided_pairs (divisor_of is_flipped divisor) (S.rest source.now 0 0)) ≡ false }
    ensures long { result ≡ Err NoMemory → 4 < length (S.rest source.now 0 0) }
{
    let mut quotients = SmallVec::new(alloc);
    let mut i = 0;
    let mut j = 0;
    while let Some(sum) = source.at(i, j) {
        match push_divided(&mut quotients, &sum.pair, divisor, is_flipped) {
            Ok(()) => {}
            Err(fault) => return Err(fault),
        }
        i = sum.i;
        j = sum.j;
    }
    Ok(quotients)
}

/// The normal form of the row that has the pairs of the source, which is gone through twice: for the common
/// divisor, and to divide.
pub(crate) fn reduced<S: Source>(
    alloc: Global,
    rel: Rel,
    source: &S,
    constant: i128,
) -> Result<Row, RowFault>
    requires rising { IsRising (S.rest source.now 0 0) }
    ensures value { IfOk result (λ r. r ≡ normal (row_of rel (S.rest source.now 0 0) constant)) }
    ensures kept { IfOk result IsKept }
    ensures overflow { result ≡ Err Overflow → is_within (normal (row_of rel (S.rest source.now 0 0) constant)) ≡ false }
    ensures long { result ≡ Err NoMemory → 4 < length (S.rest source.now 0 0) }
{
    let divisor = joint(constant, source).max(1);
    let is_flipped = is_flipped(rel, source);
    let pairs = divided_all(alloc, source, divisor, is_flipped)?;
    match divided(constant, divisor, is_flipped) {
        Some(constant) => Ok(Row {
            rel,
            pairs,
            constant,
        }),
        None => Err(RowFault::Overflow),
    }
}
