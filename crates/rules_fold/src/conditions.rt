//! The conditions of a fold.

ghost use Rattle.std.specs.Prelude.{◌≡◌, ℕ, length, IfOk};
ghost use Rattle.clp_model.specs.declared.tree.Tree.{Tree};
ghost use Rattle.clause_store.specs.Stored.{clause_in, IsStored};
ghost use Rattle.clause_fold.specs.Images.{AreImages, Become};
ghost use Rattle.map_model.specs.Rewriting.{or_next};
ghost use Rattle.map_model.specs.Folding as spec;
ghost use Rattle.rules_fold.specs.Conditions.{given_broken};

use clause_fold::{bad_with, first_outside, first_repeated, lost_variable};
use clause_store::{Clause, Limit};
use map_state::Refusal;
use std::alloc::Global;
use term_store::{NoMemory, Store, Term};

const MAX_ROWS: usize = 128;

/// The position that is no atom's, or else the one that is given twice.
#[tactic(auto, using(crate::proofs::Parts::length_atoms))]
pub(crate) fn atoms_broken(_store: &Store, c: &Clause, at: &[u32]) -> Option<Refusal>
    ensures { result ≡ spec.atoms_broken (clause_in _store.now c.now) at.now }
{
    if let Some(position) = first_outside(c.atoms.len(), at) {
        return Some(Refusal::NoAtom(position));
    }
    match first_repeated(at) {
        Some(position) => Some(Refusal::RepeatedPosition(position)),
        None => None,
    }
}

/// The position that is no row's, or else the one that is given twice.
fn rows_broken(_store: &Store, c: &Clause, keep: &[u32]) -> Option<Refusal>
    ensures { result ≡ spec.rows_broken (clause_in _store.now c.now) keep.now }
{
    if let Some(position) = first_outside(c.rows.len(), keep) {
        return Some(Refusal::NoRow(position));
    }
    match first_repeated(keep) {
        Some(position) => Some(Refusal::RepeatedPosition(position)),
        None => None,
    }
}

/// The first broken condition on the variables that are named and on the rows that are kept.
pub(crate) fn given_broken(
    alloc: Global,
    store: &Store,
    n: &Clause,
    c: &Clause,
    with: &[u32],
    keep: &[u32],
) -> Result<Option<Refusal>, NoMemory>
    requires definition { IsStored store.now n.now }
    requires clause { IsStored store.now c.now }
    ensures { IfOk result (λ broken. broken ≡ given_broken (clause_in store.now n.now) (clause_in store.now c.now) with.now keep.now) }
{
    match bad_with(alloc, store, n, c, with)? {
        Some(place) => Ok(Some(Refusal::BadWith(place))),
        None => Ok(rows_broken(store, c, keep)),
    }
}

/// Whether there would be too many rows to show others from.
#[tactic(auto, using(map_state::proofs::Placed::few_rows))]
fn many_rows(_store: &Store, n: &Clause, keep: &[u32]) -> Option<Refusal>
    requires { IsStored _store.now n.now }
    ensures { result ≡ spec.many_rows (clause_in _store.now n.now) keep.now }
{
    if keep.len() > MAX_ROWS - n.rows.len() {
        return Some(Refusal::TooLarge(Limit::Rows));
    }
    None
}

/// The first broken condition on what the variables of the definition become, and on the number of rows.
pub(crate) fn lost_or_many_broken(
    alloc: Global,
    store: &Store,
    n: &Clause,
    c: &Clause,
    scratch: &Store,
    images: &[Term],
    at: &[u32],
    keep: &[u32],
) -> Result<Option<Refusal>, NoMemory>
    requires definition { IsStored store.now n.now }
    requires clause { IsStored store.now c.now }
    requires images { AreImages scratch.now images.now (length n.now.sorts) c.now.sorts }
    ensures { IfOk result (λ broken. (s : ℕ → Tree ℕ) → Become scratch.now images.now s
        → broken ≡ or_next (spec.lost_broken (clause_in store.now n.now) (clause_in store.now c.now) s at.now keep.now) (spec.many_rows (clause_in store.now n.now) keep.now)) }
{
    match lost_variable(alloc, store, n, c, scratch, images, at, keep)? {
        Some(variable) => Ok(Some(Refusal::LostVariable(variable))),
        None => Ok(many_rows(store, n, keep)),
    }
}
