//! A clause with other rows.

ghost use Rattle.std.specs.Prelude.{◌≡◌, IfOk, All};
ghost use Rattle.lin_row.specs.Rows.{IsKept};
ghost use Rattle.clause_model.specs.Variables.{rows_variables};
ghost use Rattle.clause_store.specs.Stored.{clause_in, raw_in, IsNum, IsStored, IsRaw};

use clause_store::{Clause, RawClause, Row, copy_clause};
use sqlite_items::Items;
use std::alloc::Global;
use term_store::{NoMemory, Store};

/// The parts of a clause with these rows in the place of its own, in another store.
pub(crate) fn with_rows(
    alloc: Global,
    scratch: &mut Store,
    store: &Store,
    c: &Clause,
    rows: Items<Row>,
) -> Result<RawClause, NoMemory>
    requires stored { IsStored store.now c.now }
    requires kept { All IsKept rows }
    requires nums { All (IsNum c.now.sorts) (rows_variables rows) }
    ensures is { IfOk result (λ raw. raw_in scratch.new raw ≡ record (clause_in store.now c.now) { rows = rows }) }
    ensures raw { IfOk result (λ raw. IsRaw scratch.new raw) }
{
    let copy = copy_clause(alloc, scratch, store, c)?;
    let Clause {
        head,
        rows: _,
        atoms,
        sorts,
    } = copy;
    Ok(RawClause {
        head,
        rows,
        atoms,
        sorts,
    })
}
