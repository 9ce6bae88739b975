//! The rule `fold`.

ghost use Rattle.std.specs.Prelude.{◌≡◌, ◌⊎◌, ◌<◌, ℕ, Some, None, Ok, Err, OnOk, OnErr, IfOk, IfErr, length, map};
ghost use Rattle.clp_model.specs.declared.tree.Tree.{Tree};
ghost use Rattle.clause_store.specs.declared.fault.ClauseFault.{ClauseFault};
ghost use Rattle.clause_store.specs.Stored.{clause_in, raw_in, IsRaw, IsRefused, IsStored};
ghost use Rattle.fold_model.specs.Positions.{first_outside};
ghost use Rattle.fold_model.specs.Folded as folded;
ghost use Rattle.clause_fold.specs.Images.{AreImages, Become};
ghost use Rattle.map_model.specs.declared.refusal.Refusal.TheVariants.{NoMemory};
ghost use Rattle.map_model.specs.State.{live_at};
ghost use Rattle.map_model.specs.Folding.{fold_after, fold_defined};
ghost use Rattle.map_state.specs.Faults.{refusal_of};
ghost use Rattle.map_state.specs.Seen.{entry_in, state_of};
ghost use Rattle.map_state.specs.Changes.{placed};
ghost use Rattle.rules_fold.specs.Filled.{HasCertificates, IsFilled};

use crate::images::{Images, allowed};
use crate::showing::show_folded;
use clause_fold::folded_clause;
use clause_store::{Clause, Pred};
use farkas_check::Cert;
use map_model::{Shown, Shows};
use map_state::{Entry, Refusal, Replacement, State, Step, in_place, refusal_of};
use sqlite_items::Items;
use std::alloc::Global;
use term_store::{NoMemory, Store};

/// `fold C at [I,..] by P with [V,..] keep [J,..] show ..`: the atoms of a clause at the positions `at`, which are in this
/// order an instance of the atoms of the kept definition of a predicate, give way to the instance of its head, at the
/// place of the first of them; its rows but those at the positions `keep` are dropped. The variables `with` are what the
/// definition's variables become that are in none of its atoms, in order. What its rows become is shown from the rows of
/// the clause, and each row that is dropped from those that remain with these, by the given certificates or the finder's.
/// The new clause takes the next free id and keeps the mark.
///
/// Refused where the clause isn't live (`NoClause`) or is unmarked (`Unmarked`), the predicate has no definition
/// (`NoDefinition`), a position isn't one of the clause's atoms (`NoAtom`) or repeats (`RepeatedPosition`), the atoms are
/// no instance (`NoMatch`), what is named isn't a Num variable for each (`BadWith`), a position isn't one of its rows
/// (`NoRow`) or repeats (`RepeatedPosition`), a variable of the definition that isn't in its head doesn't become a
/// variable of its own (`LostVariable`), more than 128 rows would remain (`TooLarge`), the certificates aren't as many as
/// the rows to be shown or one of these isn't shown (`BadMultipliers`, `Overflow`, `TooLarge(Chain)`, `Unentailed`, with its
/// place), or a limit would be past (`TooLarge`), the first of these in this order, or where memory is wanting. The state
/// then stays as it was. Answers the step with the certificates in it. After Tamaki and Sato (1984).
pub fn fold(
    state: &mut State,
    id: u32,
    at: &[u32],
    by: &Pred,
    with: &[u32],
    keep: &[u32],
    show: &Shows,
) -> Result<Step, Refusal>
    requires { length (state_of state.old).steps < 100000 }
    ensures accepted { OnOk result (fold_after (state_of state.old) id at.now by.now with.now keep.now show.now ≡ Ok (state_of state.new)) }
    ensures filled { IfOk result (IsFilled (state_of state.old) (state_of state.new) (Step.Fold id at.now by.now with.now keep.now)) }
    ensures refused { IfErr result (λ e. (e ≡ Refusal.NoMemory) ⊎ (fold_after (state_of state.old) id at.now by.now with.now keep.now show.now ≡ Err e)) }
    ensures unchanged { OnErr result (state_of state.new ≡ state_of state.old) }
{
    let replacement = folded(state, id, at, by, with, keep, show)?;
    in_place(state, id, replacement)
}

/// What takes the clause's place, or the first broken condition.
fn folded(
    state: &State,
    id: u32,
    at: &[u32],
    by: &Pred,
    with: &[u32],
    keep: &[u32],
    show: &Shows,
) -> Result<Replacement, Refusal>
    ensures accepted { IfOk result (λ r. fold_after (state_of state.now) id at.now by.now with.now keep.now show.now ≡ placed (state_of state.now) id r) }
    ensures raw { IfOk result (λ r. IsRaw r.scratch r.raw) }
    ensures step { IfOk result (λ r. HasCertificates (Step.Fold id at.now by.now with.now keep.now) r.step) }
    ensures refused { IfErr result (λ e. (e ≡ Refusal.NoMemory) ⊎ (fold_after (state_of state.now) id at.now by.now with.now keep.now show.now ≡ Err e)) }
{
    let Some(entry) = state.live_entry(id) else {
        return Err(Refusal::NoClause(id));
    };
    if !entry.mark {
        return Err(Refusal::Unmarked(id));
    }
    let Some(definition) = state.definition(by) else {
        return Err(Refusal::NoDefinition(by.copy(state.alloc())?));
    };
    folded_by(state, id, entry, definition, at, by, with, keep, show)
}

/// What takes the place of a live clause that is folded by the definition of a predicate.
fn folded_by(
    state: &State,
    id: u32,
    entry: &Entry,
    n: &Clause,
    at: &[u32],
    by: &Pred,
    with: &[u32],
    keep: &[u32],
    show: &Shows,
) -> Result<Replacement, Refusal>
    requires clause { IsStored state.now.store entry.now.clause }
    requires definition { IsStored state.now.store n.now }
    requires live { Some (entry_in state.now.store entry.now) ≡ live_at (state_of state.now) id }
    ensures accepted { IfOk result (λ r. fold_defined (state_of state.now) id at.now by.now with.now keep.now show.now (entry_in state.now.store entry.now) (Some (clause_in state.now.store n.now)) ≡ placed (state_of state.now) id r) }
    ensures raw { IfOk result (λ r. IsRaw r.scratch r.raw) }
    ensures step { IfOk result (λ r. HasCertificates (Step.Fold id at.now by.now with.now keep.now) r.step) }
    ensures refused { IfErr result (λ e. (e ≡ Refusal.NoMemory) ⊎ (fold_defined (state_of state.now) id at.now by.now with.now keep.now show.now (entry_in state.now.store entry.now) (Some (clause_in state.now.store n.now)) ≡ Err e)) }
{
    let alloc = state.alloc();
    let store = state.store();
    let c = &entry.clause;
    let images = allowed(alloc, store, n, c, at, with, keep)?;
    let terms = images.terms.as_slice();
    let certificates = show_folded(alloc, store, n, c, &images.scratch, terms, keep, show)?;
    let step = filled(alloc, id, at, by, with, keep, certificates.as_slice())?;
    replacement(alloc, store, n, c, images, at, keep, step)
}

/// The step with certificates in the place of what showed its rows.
fn filled(
    alloc: Global,
    id: u32,
    at: &[u32],
    by: &Pred,
    with: &[u32],
    keep: &[u32],
    certificates: &[Cert],
) -> Result<Step, NoMemory>
    ensures { IfOk result (λ step. step ≡ Step.Fold id at.now by.now with.now keep.now (Shows.Each (map Shown.Given certificates.now))) }
{
    Ok(Step::Fold {
        id,
        at: Items::from_slice(alloc, at)?,
        by: by.copy(alloc)?,
        with: Items::from_slice(alloc, with)?,
        keep: Items::from_slice(alloc, keep)?,
        show: Shows::Each(given(alloc, certificates)?),
    })
}

/// Each of the certificates as a way to show a row.
fn given(alloc: Global, certificates: &[Cert]) -> Result<Items<Shown>, NoMemory>
    ensures { IfOk result (λ ways. ways ≡ map Shown.Given certificates.now) }
{
    let mut ways = Items::new(alloc);
    for certificate in certificates {
        match certificate.copy(alloc) {
            Ok(copy) => ways.push(Shown::Given(copy))?,
            Err(_) => return Err(NoMemory),
        }
    }
    Ok(ways)
}

/// The folded clause and its step, in the store of the images.
fn replacement(
    alloc: Global,
    store: &Store,
    n: &Clause,
    c: &Clause,
    images: Images,
    at: &[u32],
    keep: &[u32],
    step: Step,
) -> Result<Replacement, Refusal>
    requires definition { IsStored store.now n.now }
    requires clause { IsStored store.now c.now }
    requires images { AreImages images.scratch images.terms (length n.now.sorts) c.now.sorts }
    requires positions { first_outside (length c.now.atoms) at.now ≡ None }
    ensures is { IfOk result (λ r. (s : ℕ → Tree ℕ) → Become images.scratch images.terms s → raw_in r.scratch r.raw ≡ folded.folded_clause (clause_in store.now n.now) (clause_in store.now c.now) s at.now keep.now) }
    ensures raw { IfOk result (λ r. IsRaw r.scratch r.raw) }
    ensures step { IfOk result (λ r. r.step ≡ step) }
    ensures refused { IfErr result (λ e. (fault : ClauseFault) × ((e ≡ refusal_of fault)
        × ((s : ℕ → Tree ℕ) → Become images.scratch images.terms s → IsRefused (folded.folded_clause (clause_in store.now n.now) (clause_in store.now c.now) s at.now keep.now) fault))) }
{
    let Images { mut scratch, terms } = images;
    match folded_clause(alloc, &mut scratch, store, n, c, terms.as_slice(), at, keep) {
        Ok(raw) => Ok(Replacement { raw, step, scratch }),
        Err(fault) => Err(refusal_of(fault)),
    }
}
