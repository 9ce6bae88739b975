//! The canonical form of a new clause.

ghost use Rattle.std.specs.Prelude.{◌≡◌, ◌≤◌, ◌∷◌, length, map, Ok, Err, None, IfOk, IfErr};
ghost use Rattle.clp_model.specs.Trees.{mapped_all};
ghost use Rattle.clp_model.specs.Canonical.{place_in};
ghost use Rattle.linear_model.specs.Normal.{normal};
ghost use Rattle.linear_model.specs.Changes.{renamed};
ghost use Rattle.linear_model.specs.Elimination.{cleaned};
ghost use Rattle.clause_model.specs.Variables.{variables_by_first_occurrence};
ghost use Rattle.clause_model.specs.Canonical.{canonical_form, limit_past, new_clause};
ghost use Rattle.term_store.specs.Trees.{trees_at, HaveTrees, Keeps};
ghost use Rattle.clause_store.specs.declared.fault.ClauseFault.TheVariants.{Overflow};
ghost use Rattle.clause_store.specs.Stored.{renumber, clause_in, raw_in, raw_with, IsRaw, IsStored, IsRefused};

use crate::clause::{Clause, RawClause};
use crate::fault::ClauseFault;
use crate::limits::variables_within;
use crate::renaming::{is_in_order, renamed, renamed_all, sorts_of};
use crate::rows::cleaned;
use crate::table::renamed_rows;
use lin_row::Row;
use sqlite_items::Items;
use std::alloc::Global;
use term_store::{NoMemory, Store, Term};

/// The terms and the rows of a clause.
#[derive(Drop)]
struct Parts {
    head: Term,
    atoms: Items<Term>,
    rows: Items<Row>,
}

/// The parts with their variables numbered by their places in `met`: the same parts, where these are their numbers
/// already.
fn renamed_parts(
    alloc: Global,
    store: &mut Store,
    raw: &RawClause,
    rows: Items<Row>,
    met: &[u32],
) -> Result<Parts, NoMemory>
    requires raw { IsRaw store.old raw.now }
    requires clean { rows ≡ cleaned raw.now.rows }
    requires met { met.now ≡ variables_by_first_occurrence (raw_with store.old raw.now rows) }
    requires few { length met.now ≤ 256 }
    ensures keeps { Keeps store.old store.new }
    ensures terms { IfOk result (λ parts. HaveTrees store.new (parts.head ∷ parts.atoms) (mapped_all (renumber met.now) (trees_at store.old (raw.now.head ∷ raw.now.atoms)))) }
    ensures rows { IfOk result (λ parts. parts.rows ≡ map (λ r. normal (renamed (place_in met.now) r)) rows) }
{
    if is_in_order(met) {
        let atoms = Items::from_slice(alloc, raw.atoms.as_slice())?;
        return Ok(Parts {
            head: raw.head,
            atoms,
            rows,
        });
    }
    let head = renamed(alloc, store, raw.head, met)?;
    let atoms = renamed_all(alloc, store, raw.atoms.as_slice(), met)?;
    let rows = renamed_rows(alloc, rows.as_slice(), raw.sorts.len(), met)?;
    Ok(Parts { head, atoms, rows })
}

/// The clause with these rows and with its variables numbered by their places in `met`.
fn renumbered(
    alloc: Global,
    store: &mut Store,
    raw: &RawClause,
    rows: Items<Row>,
    met: &[u32],
) -> Result<Clause, NoMemory>
    requires raw { IsRaw store.old raw.now }
    requires clean { rows ≡ cleaned raw.now.rows }
    requires met { met.now ≡ variables_by_first_occurrence (raw_with store.old raw.now rows) }
    requires within { limit_past (canonical_form (raw_in store.old raw.now)) ≡ None }
    ensures keeps { Keeps store.old store.new }
    ensures form { IfOk result (λ c. clause_in store.new c ≡ canonical_form (raw_in store.old raw.now)) }
    ensures stored { IfOk result (λ c. IsStored store.new c) }
{
    let parts = renamed_parts(alloc, store, raw, rows, met)?;
    let sorts = sorts_of(alloc, raw.sorts.as_slice(), met)?;
    Ok(Clause {
        head: parts.head,
        rows: parts.rows,
        atoms: parts.atoms,
        sorts,
    })
}

/// The canonical form: rows are in normal form, without true constant rows and rows equal to an earlier one; variables
/// are numbered by first occurrence in the head, then the body atoms and then the rows, each of which is written in
/// the new numbers; and the sorts are those of these variables. `TooLarge` where the clause is past a limit, with the
/// first such limit. It is never `Overflow`, since the rows are in range and no two variables become one.
pub fn canonical(alloc: Global, store: &mut Store, raw: &RawClause) -> Result<Clause, ClauseFault>
    requires { IsRaw store.old raw.now }
    ensures keeps { Keeps store.old store.new }
    ensures form { IfOk result (λ c. clause_in store.new c ≡ canonical_form (raw_in store.old raw.now)) }
    ensures made { IfOk result (λ c. new_clause (raw_in store.old raw.now) ≡ Ok (clause_in store.new c)) }
    ensures stored { IfOk result (λ c. IsStored store.new c) }
    ensures past { IfErr result (IsRefused (raw_in store.old raw.now)) }
    ensures in_range { ¬ (result ≡ Err Overflow) }
{
    let rows = cleaned(alloc, raw.rows.as_slice())?;
    let met = variables_within(alloc, store, raw, rows.as_slice())?;
    Ok(renumbered(alloc, store, raw, rows, met.as_slice())?)
}
