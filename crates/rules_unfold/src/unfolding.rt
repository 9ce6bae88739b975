ghost use Rattle.std.specs.Prelude.{◌≡◌, ◌⊎◌, ◌<◌, ◌∷◌, [], Ok, Err, OnOk, OnErr, IfOk, IfErr, None, length};
ghost use Rattle.map_model.specs.declared.refusal.Refusal.TheVariants.{NoMemory};
ghost use Rattle.map_model.specs.Unfolding.{unfold_after};
ghost use Rattle.map_model.specs.Rewriting.{within_limits};
ghost use Rattle.map_state.specs.Seen.{state_of};
ghost use Rattle.map_state.specs.Changes.{IsChange, changed};

use crate::resolving::resolvents;
use clause_fold::in_range;
use map_state::{Change, Made, Refusal, State, Step, removed, rewrite};
use sqlite_items::Items;
use std::alloc::Global;
use term_store::Store;

/// `unfold C at I`: a clause is replaced by its resolvents, at an atom of its body, with all live clauses, itself among
/// them. They are marked, get the next free ids in the order of the ids of these clauses, and have the clause and the
/// one with which each was made as parents. Refused where the clause isn't live (`NoClause`), the position isn't one of
/// its body (`NoAtom`), a row of a resolvent leaves the range (`Overflow(0)`), or a limit would be past (`TooLarge`), the
/// first of these in this order and the order of the resolvents, or where memory is wanting. The state then stays as it
/// was. It costs what its resolvents cost, and a look at the head of each live clause. After Tamaki and Sato (1984).
pub fn unfold(state: &mut State, id: u32, at: u32) -> Result<Step, Refusal>
    requires { length (state_of state.old).steps < 100000 }
    ensures accepted { OnOk result (unfold_after (state_of state.old) id at ≡ Ok (state_of state.new)) }
    ensures filled { IfOk result (λ step. step ≡ Step.Unfold id at) }
    ensures refused { IfErr result (λ e. (e ≡ Refusal.NoMemory) ⊎ (unfold_after (state_of state.old) id at ≡ Err e)) }
    ensures unchanged { OnErr result (state_of state.new ≡ state_of state.old) }
{
    let change = prepare(state, id, at)?;
    rewrite(state, change)
}

/// What an unfolding changes, or its first broken condition.
fn prepare(state: &State, id: u32, at: u32) -> Result<Change, Refusal>
    requires { length (state_of state.now).steps < 100000 }
    ensures accepted { IfOk result (λ change. unfold_after (state_of state.now) id at ≡ within_limits (changed (state_of state.now) change)) }
    ensures change { IfOk result (λ change. IsChange (state_of state.now) change) }
    ensures step { IfOk result (λ change. change.step ≡ Step.Unfold id at) }
    ensures refused { IfErr result (λ e. (e ≡ Refusal.NoMemory) ⊎ (unfold_after (state_of state.now) id at ≡ Err e)) }
{
    let Some(entry) = state.live_entry(id) else {
        return Err(Refusal::NoClause(id));
    };
    if !in_range(entry.clause.atoms.len(), at) {
        return Err(Refusal::NoAtom(at));
    }
    let alloc = state.alloc();
    let mut scratch = Store::new(alloc);
    let made = resolvents(state, &mut scratch, id, &entry.clause, (at - 1) as usize)?;
    let step = Step::Unfold { id, at };
    replacing(alloc, scratch, id, made, step)
}

/// The change that puts clauses in the place of one.
fn replacing(
    alloc: Global,
    scratch: Store,
    id: u32,
    made: Items<Made>,
    step: Step,
) -> Result<Change, Refusal>
    ensures ok { IfOk result (λ change. change ≡ record { dead = id ∷ []; made = made; defines = None; step = step; scratch = scratch }) }
    ensures err { IfErr result (λ e. e ≡ Refusal.NoMemory) }
{
    let mut change = removed(alloc, scratch, id, step)?;
    change.made = made;
    Ok(change)
}
