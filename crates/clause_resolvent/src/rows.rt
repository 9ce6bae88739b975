//! Rows whose variables are renumbered past those of another clause.

ghost use Rattle.std.specs.Prelude.{◌≡◌, ◌≤◌, ◌+◌, All, Err, IfOk, false, map};
ghost use Rattle.linear_model.specs.Changes.{renamed};
ghost use Rattle.linear_model.specs.Normal.{normal, is_within};
ghost use Rattle.lin_row.specs.Rows.{row_of, nonzero, VariablesRise, IsKept};
ghost use Rattle.lin_row.specs.declared.row.RowFault.TheVariants.{Overflow};
ghost use Rattle.clause_model.specs.Variables.{row_variables, rows_variables};
ghost use Rattle.unfold_model.specs.Resolvent.{past};
ghost use Rattle.clause_resolvent.specs.Raised.{raised_pairs, IsLowNumber};

use clause_store::Row;
use lin_row::RowFault;
use smallvec::SmallVec;
use sqlite_items::Items;
use std::alloc::Global;
use term_store::NoMemory;

/// How many coefficients lie in the list itself, without memory of their own.
const INLINE: usize = 4;

/// The pair with a greater number of its variable.
fn raised_pair(p: &(u32, i64), by: u32) -> (u32, i128)
    requires few { by ≤ 256 }
    requires low { IsLowNumber p.now.0 }
    ensures { result ≡ (by + p.now.0, p.now.1) }
{
    (by + p.0, p.1 as i128)
}

/// The normal form of a row with these coefficients in the place of its own.
fn with_pairs(alloc: Global, row: &Row, pairs: &[(u32, i128)]) -> Result<Row, RowFault>
    requires rise { VariablesRise pairs.now }
    ensures value { IfOk result (λ r. r ≡ normal (row_of row.now.rel (nonzero pairs.now) row.now.constant)) }
    ensures overflow { result ≡ Err Overflow → is_within (normal (row_of row.now.rel (nonzero pairs.now) row.now.constant)) ≡ false }
{
    Row::make(alloc, row.rel(), pairs, row.constant() as i128)
}

/// The pairs with greater numbers of variables.
fn raised_pairs(
    alloc: Global,
    pairs: &[(u32, i64)],
    by: u32,
) -> Result<SmallVec<(u32, i128), INLINE>, NoMemory>
    requires few { by ≤ 256 }
    requires low { All (λ p. IsLowNumber p.0) pairs.now }
    ensures { IfOk result (λ all. all.items ≡ raised_pairs by pairs.now) }
{
    let mut all = SmallVec::new(alloc);
    for pair in pairs {
        all.push(raised_pair(pair, by))?;
    }
    Ok(all)
}

/// The row with greater numbers of variables. They keep their order, so that it stays in normal form.
fn raised_row(alloc: Global, row: &Row, by: u32) -> Result<Row, NoMemory>
    requires few { by ≤ 256 }
    requires kept { IsKept row.now }
    requires low { All IsLowNumber (row_variables row.now) }
    ensures { IfOk result (λ r. r ≡ renamed (past by) row.now) }
{
    let pairs = raised_pairs(alloc, row.pairs(), by)?;
    match with_pairs(alloc, row, pairs.as_slice()) {
        Ok(row) => Ok(row),
        Err(RowFault::Overflow) => unreachable!(),
        Err(RowFault::NoMemory) => Err(NoMemory),
    }
}

/// The same of several rows, in order.
pub(crate) fn raised_rows(alloc: Global, rows: &[Row], by: u32) -> Result<Items<Row>, NoMemory>
    requires few { by ≤ 256 }
    requires kept { All IsKept rows.now }
    requires low { All IsLowNumber (rows_variables rows.now) }
    ensures { IfOk result (λ rs. rs ≡ map (renamed (past by)) rows.now) }
{
    let mut all = Items::new(alloc);
    for row in rows {
        all.push(raised_row(alloc, row, by)?)?;
    }
    Ok(all)
}
