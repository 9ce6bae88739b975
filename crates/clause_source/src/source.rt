//! The source of a clause.

ghost use Rattle.std.specs.Prelude.{◌≡◌, IfOk, Ok, Some};
ghost use Rattle.clause_model.specs.Source.{source_of};
ghost use Rattle.clause_model.specs.Load.{load_one};
ghost use Rattle.clause_store.specs.Source.{meaning_of};
ghost use Rattle.clause_store.specs.Stored.{clause_in, IsStored};
ghost use Rattle.clause_loader.specs.WellFormed.{IsWellFormed, IsNarrow};

use crate::meeting::variables_as_printed;
use crate::trees::{tree_of, trees_of};
use clause_store::{Clause, SourceClause, renamed_rows, sorts_of};
use sqlite_items::Items;
use std::alloc::Global;
use term_store::{NoMemory, Store};

/// The source of a clause: its variables are numbered as they are first met in its printed text, that is in the head,
/// then in the rows, then as the Num variables in no row, and then in the body atoms. It has no equations. Loading it
/// gives the clause again.
pub fn source_of(alloc: Global, store: &Store, c: &Clause) -> Result<SourceClause, NoMemory>
    requires { IsStored store.now c.now }
    ensures is { IfOk result (λ s. meaning_of s ≡ source_of (clause_in store.now c.now)) }
    ensures formed { IfOk result IsWellFormed }
    ensures narrow { IfOk result IsNarrow }
    ensures again { IfOk result (λ s. load_one (meaning_of s) ≡ Ok (Some (clause_in store.now c.now))) }
{
    let met = variables_as_printed(alloc, store, c)?;
    let met = met.as_slice();
    Ok(SourceClause {
        head: tree_of(alloc, store, c.head, met)?,
        equations: Items::new(alloc),
        rows: renamed_rows(alloc, c.rows.as_slice(), c.sorts.len(), met)?,
        atoms: trees_of(alloc, store, c.atoms.as_slice(), met)?,
        sorts: sorts_of(alloc, c.sorts.as_slice(), met)?,
    })
}
