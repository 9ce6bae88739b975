//! The resolvents of a clause with all live clauses.

ghost use Rattle.std.specs.Prelude.{◌≡◌, ◌⊎◌, ◌<◌, ◌+◌, ◌++◌, [], ◌∷◌, ℕ, Ok, Err, OnOk, IfOk, IfErr, length, option_to_list};
ghost use Rattle.term_store.specs.Trees.{Keeps};
ghost use Rattle.clause_store.specs.Stored.{clause_in, IsStored};
ghost use Rattle.unfold_model.specs.Resolvent.{resolvent};
ghost use Rattle.map_model.specs.declared.refusal.Refusal.TheVariants.{NoMemory};
ghost use Rattle.map_model.specs.State.{entry_at};
ghost use Rattle.map_model.specs.Rewriting.{new_entries};
ghost use Rattle.map_model.specs.Unfolding.{drafted, resolvents_from};
ghost use Rattle.map_state.specs.Seen.{state_of};
ghost use Rattle.map_state.specs.Changes.{AllMade, made_entries};
ghost use Rattle.rules_unfold.specs.Entries.{then_entries};

use clause_resolvent::resolvent;
use clause_store::Clause;
use map_state::{Made, Refusal, State, refusal_of};
use sqlite_items::Items;
use std::alloc::Global;
use term_store::Store;

/// The resolvent of the clause with this id and the clause `by`, marked, if there is one.
fn drafted(
    alloc: Global,
    scratch: &mut Store,
    store: &Store,
    id: u32,
    c: &Clause,
    place: usize,
    by: u32,
    e: &Clause,
) -> Result<Option<Made>, Refusal>
    requires first { IsStored store.now c.now }
    requires second { IsStored store.now e.now }
    requires place { place < length c.now.atoms }
    ensures keeps { Keeps scratch.old scratch.new }
    ensures value { IfOk result (λ o. (n : ℕ) → new_entries n (drafted id by (resolvent (clause_in store.now c.now) place (clause_in store.now e.now))) ≡ Ok (made_entries n scratch.new (option_to_list o))) }
    ensures stored { IfOk result (λ o. AllMade scratch.new (option_to_list o)) }
    ensures refused { IfErr result (λ f. (f ≡ NoMemory) ⊎ ((n : ℕ) → new_entries n (drafted id by (resolvent (clause_in store.now c.now) place (clause_in store.now e.now))) ≡ Err f)) }
{
    match resolvent(alloc, scratch, store, c, place, e) {
        Ok(Some(clause)) => Ok(Some(Made {
            clause,
            mark: true,
            parents: Items::from_slice(alloc, &[id, by])?,
        })),
        Ok(None) => Ok(None),
        Err(fault) => Err(refusal_of(fault)),
    }
}

/// Puts the resolvent with the clause `by` last, if this is live and there is one.
fn add(
    state: &State,
    scratch: &mut Store,
    id: u32,
    c: &Clause,
    place: usize,
    by: u32,
    made: &mut Items<Made>,
) -> Result<(), Refusal>
    requires stored { IsStored state.now.store c.now }
    requires place { place < length c.now.atoms }
    requires all { AllMade scratch.old made.old }
    ensures all { OnOk result (AllMade scratch.new made.new) }
    ensures value { OnOk result ((n : ℕ) → Ok (made_entries n scratch.new made.new)
        ≡ then_entries (Ok (made_entries n scratch.old made.old)) (new_entries n (resolvents_from id (clause_in state.now.store c.now) place by (entry_at (state_of state.now) by ∷ [])))) }
    ensures refused { IfErr result (λ f. (f ≡ NoMemory) ⊎ ((n : ℕ) → new_entries n (resolvents_from id (clause_in state.now.store c.now) place by (entry_at (state_of state.now) by ∷ [])) ≡ Err f)) }
{
    let Some(entry) = state.live_entry(by) else {
        return Ok(());
    };
    match drafted(
        state.alloc(),
        scratch,
        state.store(),
        id,
        c,
        place,
        by,
        &entry.clause,
    )? {
        Some(one) => Ok(made.push(one)?),
        None => Ok(()),
    }
}

/// The resolvents of a clause, at a place of its body, with all live clauses, by their ids in rising order.
pub(crate) fn resolvents(
    state: &State,
    scratch: &mut Store,
    id: u32,
    c: &Clause,
    place: usize,
) -> Result<Items<Made>, Refusal>
    requires stored { IsStored state.now.store c.now }
    requires place { place < length c.now.atoms }
    ensures all { IfOk result (λ made. AllMade scratch.new made) }
    ensures value { IfOk result (λ made. (n : ℕ) → new_entries n (resolvents_from id (clause_in state.now.store c.now) place 1 (state_of state.now).entries) ≡ Ok (made_entries n scratch.new made)) }
    ensures refused { IfErr result (λ f. (f ≡ NoMemory) ⊎ ((n : ℕ) → new_entries n (resolvents_from id (clause_in state.now.store c.now) place 1 (state_of state.now).entries) ≡ Err f)) }
{
    let mut made = Items::new(state.alloc());
    for by in 1..state.next_id() {
        add(state, scratch, id, c, place, by, &mut made)?;
    }
    Ok(made)
}
