//! The conditions of a definition.

ghost use Rattle.std.specs.Prelude.{◌≡◌, IfOk};
ghost use Rattle.clause_store.specs.Stored.{clause_in, atoms_at, IsStored};
ghost use Rattle.map_state.specs.Seen.{state_of};
ghost use Rattle.map_model.specs.Defining as spec;
ghost use Rattle.map_model.specs.Rewriting.{or_next};
ghost use Rattle.term_store.specs.Trees.{AreIn};

use crate::predicate::pred_of;
use clause_fold::{loose_variable, wrong_argument};
use clause_store::{Clause, Pred};
use map_state::{Refusal, State, same_pred};
use std::alloc::Global;
use term_store::{NoMemory, Store, Term};

/// The first broken condition on the clause of a definition.
pub(crate) fn definition_broken(
    state: &State,
    store: &Store,
    c: &Clause,
) -> Result<Option<Refusal>, NoMemory>
    requires { IsStored store.now c.now }
    ensures { IfOk result (λ broken. broken ≡ spec.definition_broken (state_of state.now) (clause_in store.now c.now)) }
{
    let pred = pred_of(state.alloc(), store, c.head)?;
    if state.is_initial(&pred) || state.is_defined(&pred) {
        return Ok(Some(Refusal::NotFresh(pred)));
    }
    if let Some(place) = wrong_argument(store, c) {
        return Ok(Some(Refusal::HeadNotVariables(place)));
    }
    body_or_loose_broken(state, store, &pred, c)
}

/// The first broken condition on the body of the definition of this predicate, and then on its variables.
fn body_or_loose_broken(
    state: &State,
    store: &Store,
    pred: &Pred,
    c: &Clause,
) -> Result<Option<Refusal>, NoMemory>
    requires { IsStored store.now c.now }
    ensures { IfOk result (λ broken. broken ≡ or_next (spec.no_body (clause_in store.now c.now).body)
        (or_next (spec.body_broken (state_of state.now) pred.now (clause_in store.now c.now).body) (spec.loose_broken (clause_in store.now c.now)))) }
{
    if let Some(refusal) = no_body(store, c) {
        return Ok(Some(refusal));
    }
    if let Some(refusal) = body_broken(state, store, pred, c.atoms.as_slice())? {
        return Ok(Some(refusal));
    }
    loose_broken(state.alloc(), store, c)
}

/// Whether there is no atom.
#[tactic(auto, using(crate::proofs::Atoms::some_body))]
fn no_body(_store: &Store, c: &Clause) -> Option<Refusal>
    ensures { result ≡ spec.no_body (clause_in _store.now c.now).body }
{
    if c.atoms.as_slice().is_empty() {
        return Some(Refusal::EmptyDefinition);
    }
    None
}

/// The least variable that is in the head alone, or in rows alone.
fn loose_broken(alloc: Global, store: &Store, c: &Clause) -> Result<Option<Refusal>, NoMemory>
    requires { IsStored store.now c.now }
    ensures { IfOk result (λ broken. broken ≡ spec.loose_broken (clause_in store.now c.now)) }
{
    match loose_variable(alloc, store, c)? {
        Some(variable) => Ok(Some(Refusal::LooseVariable(variable))),
        None => Ok(None),
    }
}

/// The first of these atoms whose predicate may not stand in the body of the definition of this one.
#[tactic(auto, using(crate::proofs::Atoms::body_from))]
fn body_broken(
    state: &State,
    store: &Store,
    pred: &Pred,
    atoms: &[Term],
) -> Result<Option<Refusal>, NoMemory>
    requires { AreIn store.now atoms.now }
    ensures { IfOk result (λ broken. broken ≡ spec.body_broken (state_of state.now) pred.now (atoms_at store.now atoms.now)) }
{
    for atom in atoms {
        let of = pred_of(state.alloc(), store, *atom)?;
        if let Some(refusal) = atom_broken(state, pred, of) {
            return Ok(Some(refusal));
        }
    }
    Ok(None)
}

/// Why an atom of the predicate `of` may not stand in the body of the definition of `pred`.
fn atom_broken(state: &State, pred: &Pred, of: Pred) -> Option<Refusal>
    ensures { result ≡ spec.atom_broken (state_of state.now) pred.now of }
{
    if same_pred(pred, &of) || state.is_defined(&of) {
        return Some(Refusal::RecursiveDefinition(of));
    }
    if state.is_initial(&of) {
        return None;
    }
    Some(Refusal::UnknownPredicate(of))
}
