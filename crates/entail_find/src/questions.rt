ghost use Rattle.std.specs.Prelude.{◌≡◌, ◌≢◌, ◌≤◌, ◌∷◌, pos, true, length, IfOk, IfErr, IfSome, OnOk, Option, Some, None};
ghost use Rattle.clp_model.specs.declared.sort.Rel.TheVariants.{Eq};
ghost use Rattle.linear_model.specs.Forms.{IsRising};
ghost use Rattle.linear_model.specs.Elimination.{is_equation};
ghost use Rattle.linear_model.specs.Changes.{at_most, flipped};
ghost use Rattle.linear_model.specs.Chain as chains;
ghost use Rattle.farkas_check.specs.Parts.{part};
ghost use Rattle.chain_laws.specs.Laws.{RisingRows};
ghost use Rattle.entail_find.specs.Answers as spec;
ghost use Rattle.entail_find.specs.declared.fault.FindFault.TheVariants.{NoMemory};

use crate::begin::{begin, push_row};
use crate::chain::chain;
use crate::fault::FindFault;
use chain_items::Item;
use farkas_check::{Cert, Part};
use lin_row::{Rel, Row};
use std::alloc::{AllocError, Global};

/// The answer to a question.
#[derive(Drop)]
pub enum Found {
    /// A certificate that the checker accepts.
    Shown(Cert),
    /// The rows do not entail the target; without a target, they have a common solution.
    NotEntailed,
}

/// The part of multipliers in range.
fn whole(k: i64, m: Vec<i64>) -> Part
    requires { chains.weights_within (k ∷ m.items) ≡ true }
    ensures { result ≡ part k m.items }
{
    match Part::make(k, m) {
        Ok(part) => part,
        Err(_) => unreachable!(),
    }
}

/// The part that a false item gives, where the first multiplier is the target's.
fn part_of(alloc: Global, item: &Item) -> Result<Part, AllocError>
    ensures { IfOk result (λ p. p ≡ chains.part_of (chains.signed item.now)) }
{
    let mut m = item.certificate(alloc)?;
    if m.is_empty() {
        return Ok(whole(0, m));
    }
    let k = m.remove(0);
    Ok(whole(k, m))
}

/// The items at the start: the rows and then the negated target, whose multiplier stands first.
fn begin_with(alloc: Global, rows: &[Row], target: &Row) -> Result<Vec<Item>, FindFault>
    requires few { length rows.now ≤ 128 }
    requires inequality { target.now.rel ≢ Eq }
    ensures value { IfOk result (λ v. v.items ≡ chains.begun_with rows.now target.now) }
    ensures rows_rise { OnOk result (RisingRows rows.now) }
    ensures target_rises { OnOk result (IsRising target.now.pairs) }
    ensures fault { IfErr result (λ e. e ≡ NoMemory) }
{
    let negated = target.copy(alloc)?.negate();
    let count = rows.len() as u32 + 1;
    let mut items = begin(alloc, rows, 1, count)?;
    push_row(alloc, &mut items, &negated, 0, count)?;
    Ok(items)
}

/// The part that shows an inequality, if it is entailed.
fn find_part(alloc: Global, rows: &[Row], target: &Row) -> Result<Option<Part>, FindFault>
    requires few { length rows.now ≤ 128 }
    requires inequality { target.now.rel ≢ Eq }
    ensures value { IfOk result (spec.IsPart (chains.chain (chains.begun_with rows.now target.now))) }
    ensures fault { IfErr result (spec.IsFault (chains.chain (chains.begun_with rows.now target.now))) }
    ensures rows_rise { OnOk result (RisingRows rows.now) }
    ensures target_rises { OnOk result (IsRising target.now.pairs) }
{
    let items = begin_with(alloc, rows, target)?;
    match chain(alloc, items)? {
        Some(item) => Ok(Some(part_of(alloc, &item)?)),
        None => Ok(None),
    }
}

/// Finds a certificate of an inequality.
fn find_inequality(alloc: Global, rows: &[Row], target: &Row) -> Result<Found, FindFault>
    requires few { length rows.now ≤ 128 }
    requires inequality { target.now.rel ≢ Eq }
    ensures answer { spec.Answers result (spec.found rows.now target.now) }
    ensures right { IfOk result (spec.IsRightAnswer rows.now target.now) }
{
    match find_part(alloc, rows, target)? {
        Some(part) => Ok(Found::Shown(Cert::One(part))),
        None => Ok(Found::NotEntailed),
    }
}

/// Finds a certificate of an equation, by its halves.
fn find_equation(alloc: Global, rows: &[Row], target: &Row) -> Result<Found, FindFault>
    requires few { length rows.now ≤ 128 }
    requires equation { target.now.rel ≡ Eq }
    ensures answer { spec.Answers result (spec.found rows.now target.now) }
    ensures right { IfOk result (spec.IsRightAnswer rows.now target.now) }
{
    let half = target.at_most(alloc)?;
    let Some(first) = find_part(alloc, rows, &half)? else {
        return Ok(Found::NotEntailed);
    };
    let half = half.flip();
    match find_part(alloc, rows, &half)? {
        Some(second) => Ok(Found::Shown(Cert::Two(first, second))),
        None => Ok(Found::NotEntailed),
    }
}

/// Whether at most 128 rows entail the target, by the chain of eliminations on the rows and the target's negation:
/// a certificate that the checker accepts, or that they do not entail it. An equation as target is two chains, for
/// its halves. It is `Overflow` or `TooLong` exactly where the chain is.
pub fn find(alloc: Global, rows: &[Row], target: &Row) -> Result<Found, FindFault>
    requires { length rows.now ≤ 128 }
    ensures answer { spec.Answers result (spec.found rows.now target.now) }
    ensures right { IfOk result (spec.IsRightAnswer rows.now target.now) }
{
    match target.rel() {
        Rel::Eq => find_equation(alloc, rows, target),
        Rel::Le | Rel::Lt => find_inequality(alloc, rows, target),
    }
}

/// The part that a false item gives where there is no target.
fn part_without_target(alloc: Global, item: &Item) -> Result<Part, AllocError>
    ensures { IfOk result (λ p. p ≡ part (pos 0) (chains.signed item.now)) }
{
    Ok(whole(0, item.certificate(alloc)?))
}

/// Whether at most 128 rows have no common solution, by the chain of eliminations on the rows: a certificate that
/// the checker accepts, or that they have one. It is `Overflow` or `TooLong` exactly where the chain is.
pub fn find_false(alloc: Global, rows: &[Row]) -> Result<Found, FindFault>
    requires { length rows.now ≤ 128 }
    ensures answer { spec.Answers result (spec.found_false rows.now) }
    ensures right { IfOk result (spec.IsRightFalse rows.now) }
{
    let items = begin(alloc, rows, 0, rows.len() as u32)?;
    match chain(alloc, items)? {
        Some(item) => Ok(Found::Shown(Cert::One(part_without_target(alloc, &item)?))),
        None => Ok(Found::NotEntailed),
    }
}
