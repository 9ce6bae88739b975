//! The rows of a clause.

ghost use Rattle.std.specs.Prelude.{◌≡◌, ◌≤◌, ◌+◌, ◌<◌, ◌^◌, ◌↔◌, IsTrue, All, length, map, IfOk};
ghost use Rattle.clp_model.specs.Canonical as spec;
ghost use Rattle.clp_model.specs.Canonical.{place_in};
ghost use Rattle.linear_model.specs.Normal.{normal};
ghost use Rattle.linear_model.specs.Changes.{renamed};
ghost use Rattle.linear_model.specs.Elimination.{cleaned};
ghost use Rattle.lin_row.specs.Rows.{IsKept};

use crate::cleaning::CleanRows;
use lin_row::Row;
use sqlite_items::Items;
use std::alloc::Global;
use term_store::NoMemory;

/// An equal row.
pub(crate) fn copy_row(alloc: Global, row: &Row) -> Result<Row, NoMemory>
    ensures { IfOk result (λ copy. copy ≡ row.now) }
{
    match row.copy(alloc) {
        Ok(copy) => Ok(copy),
        Err(_) => Err(NoMemory),
    }
}

/// Equal rows.
pub fn copy_rows(alloc: Global, rows: &[Row]) -> Result<Items<Row>, NoMemory>
    ensures { IfOk result (λ copies. copies ≡ rows.now) }
{
    let mut copies = Items::new(alloc);
    for row in rows {
        copies.push(copy_row(alloc, row)?)?;
    }
    Ok(copies)
}

/// One, and one for each coefficient.
fn row_size(row: &Row) -> usize
    ensures value { result ≡ 1 + length row.now.pairs }
    ensures small { result ≤ 2 ^ 63 }
{
    1 + row.pairs().len()
}

/// The size of rows that are not large.
pub(crate) fn rows_size(rows: &[Row]) -> u32
    requires { spec.rows_size rows.now ≤ 4096 }
    ensures { result ≡ spec.rows_size rows.now }
{
    let mut size = 0;
    for row in rows {
        size += row_size(row) as u32;
    }
    size
}

/// Whether the rows are together of a size above this one.
pub(crate) fn are_above(rows: &[Row], most: u32) -> bool
    requires { most ≤ 4096 }
    ensures { IsTrue result ↔ (most < spec.rows_size rows.now) }
{
    let mut size = 0;
    for row in rows {
        size += row_size(row);
        if size > most as usize {
            return true;
        }
    }
    false
}

/// The rows in order, without true constant rows and rows that are equal to an earlier one.
pub(crate) fn cleaned(alloc: Global, rows: &[Row]) -> Result<Items<Row>, NoMemory>
    requires { All IsKept rows.now }
    ensures { IfOk result (λ clean. clean ≡ cleaned rows.now) }
{
    let mut kept = CleanRows::new(alloc);
    for row in rows {
        kept.add_copy(alloc, row)?;
    }
    kept.into_rows(alloc)
}
