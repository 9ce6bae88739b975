//! Rows with their variables numbered by place in a list.

ghost use Rattle.std.specs.Prelude.{◌≡◌, ◌≤◌, ◌<◌, ◌+◌, [], All, Contains, length, map, nat_eq, IfOk};
ghost use Rattle.clp_model.specs.Predicates.{distinct_after};
ghost use Rattle.clp_model.specs.Canonical.{place_in};
ghost use Rattle.linear_model.specs.Normal.{normal};
ghost use Rattle.linear_model.specs.Changes.{renamed};
ghost use Rattle.clause_model.specs.Variables.{row_variables, rows_variables};
ghost use Rattle.lin_row.specs.Rows.{at, IsKept};
ghost use Rattle.clause_store.specs.Stored.{KeepsApart};

use lin_row::{Row, RowFault};
use sqlite_items::Items;
use std::alloc::Global;
use term_store::NoMemory;

/// A table that has for each number of `met`, which are from 1 to `count`, its place in `met`.
fn places(alloc: Global, count: usize, met: &[u32]) -> Result<Vec<u32>, NoMemory>
    requires few { length met.now ≤ 256 }
    requires once { distinct_after nat_eq [] met.now ≡ met.now }
    requires within { All (λ n. (0 < n) × (n ≤ count)) met.now }
    ensures count { IfOk result (λ table. length table.items ≡ count) }
    ensures places { IfOk result (λ table. All (λ n. at table.items n ≡ place_in met.now n) met.now) }
{
    let mut table = Vec::new(alloc);
    table.resize(count, 0)?;
    for (i, number) in met.iter().enumerate() {
        table[*number as usize - 1] = i as u32 + 1;
    }
    Ok(table)
}

/// The row in new numbers. No two of its variables become one, so that it stays in range.
fn renamed_row(alloc: Global, row: &Row, table: &[u32]) -> Result<Row, NoMemory>
    requires kept { IsKept row.now }
    requires numbered { All (λ p. (0 < p.0) × (p.0 ≤ length table.now)) row.now.pairs }
    requires apart { KeepsApart (at table.now) (row_variables row.now) }
    ensures { IfOk result (λ r. r ≡ normal (renamed (at table.now) row.now)) }
{
    match row.rename(alloc, table) {
        Ok(row) => Ok(row),
        Err(RowFault::Overflow) => unreachable!(),
        Err(RowFault::NoMemory) => Err(NoMemory),
    }
}

/// The rows with each variable numbered by its place in `met`, in normal form. The numbers of `met` are at most
/// `count`.
pub fn renamed_rows(
    alloc: Global,
    rows: &[Row],
    count: usize,
    met: &[u32],
) -> Result<Items<Row>, NoMemory>
    requires kept { All IsKept rows.now }
    requires few { length met.now ≤ 256 }
    requires once { distinct_after nat_eq [] met.now ≡ met.now }
    requires within { All (λ n. (0 < n) × (n ≤ count)) met.now }
    requires met { All (Contains met.now) (rows_variables rows.now) }
    ensures { IfOk result (λ r. r ≡ map (λ row. normal (renamed (place_in met.now) row)) rows.now) }
{
    let mut all = Items::new(alloc);
    if rows.is_empty() {
        return Ok(all);
    }
    let table = places(alloc, count, met)?;
    for row in rows {
        all.push(renamed_row(alloc, row, table.as_slice())?)?;
    }
    Ok(all)
}
