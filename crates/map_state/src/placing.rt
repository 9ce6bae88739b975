//! One clause in the place of another, and a clause that goes.

ghost use Rattle.std.specs.Prelude.{◌≡◌, ◌⊎◌, ◌<◌, ◌∷◌, ◌++◌, [], Ok, Err, OnOk, OnErr, IfOk, IfErr, length};
ghost use Rattle.clause_store.specs.Stored.{IsRaw};
ghost use Rattle.map_model.specs.declared.refusal.Refusal.TheVariants.{NoMemory};
ghost use Rattle.map_model.specs.Rewriting.{within_limits};
ghost use Rattle.map_state.specs.Seen.{state_of};
ghost use Rattle.map_state.specs.Changes.{IsChange, changed, placed, removal};

use crate::change::{Change, Made, Replacement};
use crate::fault::refusal_of;
use crate::rewriting::rewrite;
use crate::state::State;
use clause_store::canonical;
use map_model::{Refusal, Step};
use sqlite_items::Items;
use std::alloc::{AllocError, Global};
use term_store::Store;

/// A clause of these parts, in canonical form and with the mark of the live clause with this id, takes the place of that
/// clause. Refused where the clause isn't live (`NoClause`) or a limit would be past (`TooLarge`), or where memory is
/// wanting. The state then stays as it was. Answers the step as it is kept.
pub fn in_place(state: &mut State, id: u32, replacement: Replacement) -> Result<Step, Refusal>
    requires raw { IsRaw replacement.scratch replacement.raw }
    requires steps { length (state_of state.old).steps < 100000 }
    ensures accepted { OnOk result (placed (state_of state.old) id replacement ≡ Ok (state_of state.new)) }
    ensures filled { IfOk result (λ step. step ≡ replacement.step) }
    ensures kept { IfOk result (λ step. (state_of state.new).steps ≡ (state_of state.old).steps ++ step ∷ []) }
    ensures refused { IfErr result (λ e. (e ≡ Refusal.NoMemory) ⊎ (placed (state_of state.old) id replacement ≡ Err e)) }
    ensures unchanged { OnErr result (state_of state.new ≡ state_of state.old) }
{
    let change = placing(state, id, replacement)?;
    rewrite(state, change)
}

/// What the replacement changes, or its first broken condition.
fn placing(state: &State, id: u32, replacement: Replacement) -> Result<Change, Refusal>
    requires raw { IsRaw replacement.scratch replacement.raw }
    requires steps { length (state_of state.now).steps < 100000 }
    ensures accepted { IfOk result (λ change. placed (state_of state.now) id replacement ≡ within_limits (changed (state_of state.now) change)) }
    ensures change { IfOk result (λ change. IsChange (state_of state.now) change) }
    ensures step { IfOk result (λ change. change.step ≡ replacement.step) }
    ensures refused { IfErr result (λ e. (e ≡ Refusal.NoMemory) ⊎ (placed (state_of state.now) id replacement ≡ Err e)) }
{
    let Some(entry) = state.live_entry(id) else {
        return Err(Refusal::NoClause(id));
    };
    let alloc = state.alloc();
    let Replacement {
        raw,
        step,
        mut scratch,
    } = replacement;
    let clause = match canonical(alloc, &mut scratch, &raw) {
        Ok(clause) => clause,
        Err(fault) => return Err(refusal_of(fault)),
    };
    let made = Made {
        clause,
        mark: entry.mark,
        parents: Items::from_slice(alloc, &[id])?,
    };
    let mut change = removed(alloc, scratch, id, step)?;
    change.made.push(made)?;
    Ok(change)
}

/// The change by which a clause goes.
pub fn removed(alloc: Global, scratch: Store, id: u32, step: Step) -> Result<Change, AllocError>
    ensures { IfOk result (λ change. change ≡ removal scratch id step) }
{
    let mut change = Change::new(alloc, step, scratch);
    change.dead.push(id)?;
    Ok(change)
}
