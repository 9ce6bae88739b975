//! The limits of a new clause.

ghost use Rattle.std.specs.Prelude.{◌≡◌, ◌∷◌, ◌↔◌, IsTrue, None, Err, IfOk, IfErr, OnOk};
ghost use Rattle.linear_model.specs.Elimination.{cleaned};
ghost use Rattle.clause_model.specs.Variables.{variables_by_first_occurrence};
ghost use Rattle.clause_model.specs.Canonical.{canonical_form, limit_past};
ghost use Rattle.term_store.specs.Trees.{AreIn};
ghost use Rattle.clause_store.specs.declared.fault.ClauseFault.TheVariants.{Overflow};
ghost use Rattle.clause_store.specs.Stored.{raw_in, raw_with, IsRaw, IsLarge, IsRefused};

use crate::clause::RawClause;
use crate::fault::ClauseFault;
use crate::meeting::variables_met;
use crate::rows::are_above;
use clp_model::Limit;
use lin_row::Row;
use sqlite_items::Items;
use std::alloc::Global;
use std::cmp::max;
use term_store::Store;

const MAX_SIZE: u32 = 4096;

const MAX_DEPTH: u32 = 256;

const MAX_ATOMS: usize = 64;

const MAX_VARIABLES: usize = 256;

const MAX_ROWS: usize = 128;

/// Whether the head, the body atoms and these rows are together above size 4,096, or a term is above depth 256.
fn is_large(store: &Store, raw: &RawClause, rows: &[Row]) -> bool
    requires { AreIn store.now (raw.now.head ∷ raw.now.atoms) }
    ensures { IsTrue result ↔ IsLarge store.now raw.now.head rows.now raw.now.atoms }
{
    let mut size = store.size(raw.head);
    let mut depth = store.depth(raw.head);
    for atom in raw.atoms.as_slice() {
        size += store.size(*atom);
        depth = max(depth, store.depth(*atom));
        if size > MAX_SIZE {
            return true;
        }
    }
    depth > MAX_DEPTH || are_above(rows, MAX_SIZE - size)
}

/// The variables of a new clause with its clean rows, by first occurrence, or the first limit that the clause is past.
pub(crate) fn variables_within(
    alloc: Global,
    store: &Store,
    raw: &RawClause,
    rows: &[Row],
) -> Result<Items<u32>, ClauseFault>
    requires raw { IsRaw store.now raw.now }
    requires clean { rows.now ≡ cleaned raw.now.rows }
    ensures met { IfOk result (λ met. met ≡ variables_by_first_occurrence (raw_with store.now raw.now rows.now)) }
    ensures within { OnOk result (limit_past (canonical_form (raw_in store.now raw.now)) ≡ None) }
    ensures past { IfErr result (IsRefused (raw_in store.now raw.now)) }
    ensures in_range { ¬ (result ≡ Err Overflow) }
{
    if is_large(store, raw, rows) {
        return Err(ClauseFault::TooLarge(Limit::Shape));
    }
    if raw.atoms.len() > MAX_ATOMS {
        return Err(ClauseFault::TooLarge(Limit::Atoms));
    }
    let met = variables_met(alloc, store, raw, rows)?;
    if met.len() > MAX_VARIABLES {
        return Err(ClauseFault::TooLarge(Limit::Variables));
    }
    if rows.len() > MAX_ROWS {
        return Err(ClauseFault::TooLarge(Limit::Rows));
    }
    Ok(met)
}
