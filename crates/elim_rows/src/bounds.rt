//! Elimination by the variable's bounds in pairs.

ghost use Rattle.std.specs.Prelude.{◌≡◌, ◌<ℤ◌, pos, false, OnOk, Err};
ghost use Rattle.linear_model.specs.Forms.{coefficient};
ghost use Rattle.elim_rows.specs.Made.{all_within};
ghost use Rattle.elim_rows.specs.Kept.{Adds, flat, of_other, of_upper, of_lower};
ghost use Rattle.lin_row.specs.declared.row.RowFault.TheVariants.{Overflow};

use crate::cancelling::{coefficient_of, factors, stricter};
use crate::kept::Kept;
use lin_row::{Row, RowFault};
use std::alloc::Global;

/// Adds a copy of each row that doesn't have the variable.
#[tactic(auto, using(crate::proofs::Adding::adds_all))]
pub fn keep_others(alloc: Global, kept: &mut Kept, var: u32, rows: &[Row]) -> Result<(), RowFault>
    ensures value { OnOk result (Adds kept.old (flat (of_other var) rows.now) kept.new) }
    ensures overflow { ¬ (result ≡ Err Overflow) }
{
    for row in rows {
        keep_other(alloc, kept, var, row)?;
    }
    Ok(())
}

/// Adds a copy of the row, if it doesn't have the variable.
fn keep_other(alloc: Global, kept: &mut Kept, var: u32, row: &Row) -> Result<(), RowFault>
    ensures value { OnOk result (Adds kept.old (of_other var row.now) kept.new) }
    ensures overflow { ¬ (result ≡ Err Overflow) }
{
    if coefficient_of(row, var) == 0 {
        kept.add_copy(alloc, row)
    } else {
        Ok(())
    }
}

/// Adds what the lower bound makes with the row, if that is an upper bound.
fn pair_with(
    alloc: Global,
    kept: &mut Kept,
    var: u32,
    lower: &Row,
    row: &Row,
) -> Result<(), RowFault>
    requires { coefficient lower.now.pairs var <ℤ pos 0 }
    ensures value { OnOk result (Adds kept.old (of_upper var lower.now row.now) kept.new) }
    ensures overflow { result ≡ Err Overflow → all_within (of_upper var lower.now row.now) ≡ false }
{
    let above = coefficient_of(row, var);
    if above <= 0 {
        return Ok(());
    }
    let (of_lower, of_upper) = factors(coefficient_of(lower, var), above);
    let rel = stricter(lower.rel(), row.rel());
    let made = lower.combine(alloc, rel, of_lower, of_upper, row)?;
    kept.add(made)
}

/// Adds what the row makes with each upper bound among the rows, if it is a lower bound.
#[tactic(auto, using(crate::proofs::Adding::adds_all))]
fn pair_with_each(
    alloc: Global,
    kept: &mut Kept,
    var: u32,
    lower: &Row,
    rows: &[Row],
) -> Result<(), RowFault>
    ensures value { OnOk result (Adds kept.old (of_lower var rows.now lower.now) kept.new) }
    ensures overflow { result ≡ Err Overflow → all_within (of_lower var rows.now lower.now) ≡ false }
{
    if coefficient_of(lower, var) >= 0 {
        return Ok(());
    }
    for row in rows {
        pair_with(alloc, kept, var, lower, row)?;
    }
    Ok(())
}

/// Adds what each lower bound makes with each upper bound.
#[tactic(auto, using(crate::proofs::Adding::adds_all))]
pub fn pair_bounds(alloc: Global, kept: &mut Kept, var: u32, rows: &[Row]) -> Result<(), RowFault>
    ensures value { OnOk result (Adds kept.old (flat (of_lower var rows.now) rows.now) kept.new) }
    ensures overflow { result ≡ Err Overflow → all_within (flat (of_lower var rows.now) rows.now) ≡ false }
{
    for lower in rows {
        pair_with_each(alloc, kept, var, lower, rows)?;
    }
    Ok(())
}
