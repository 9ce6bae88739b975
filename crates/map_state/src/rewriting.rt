ghost use Rattle.std.specs.Prelude.{◌≡◌, ◌⊎◌, ◌∷◌, ◌++◌, [], Ok, Err, OnOk, OnErr, IfOk, IfErr};
ghost use Rattle.map_model.specs.declared.refusal.Refusal.TheVariants.{NoMemory};
ghost use Rattle.map_model.specs.Rewriting.{within_limits};
ghost use Rattle.map_state.specs.Seen.{state_of};
ghost use Rattle.map_state.specs.Changes.{IsChange, changed};

use crate::change::Change;
use crate::state::State;
use map_model::{Refusal, Step};

/// A change takes effect, unless a limit would be past or memory is wanting. Answers the step as it is kept.
pub fn rewrite(state: &mut State, change: Change) -> Result<Step, Refusal>
    requires { IsChange (state_of state.old) change }
    ensures accepted { OnOk result (within_limits (changed (state_of state.old) change) ≡ Ok (state_of state.new)) }
    ensures filled { IfOk result (λ step. step ≡ change.step) }
    ensures kept { IfOk result (λ step. (state_of state.new).steps ≡ (state_of state.old).steps ++ step ∷ []) }
    ensures refused { IfErr result (λ e. (e ≡ Refusal.NoMemory) ⊎ (within_limits (changed (state_of state.old) change) ≡ Err e)) }
    ensures unchanged { OnErr result (state_of state.new ≡ state_of state.old) }
{
    if let Some(limit) = state.limit_past(&change) {
        return Err(Refusal::TooLarge(limit));
    }
    // A copy is made first, since nothing may fail once the state has changed.
    let step = change.step.copy(state.alloc())?;
    let ready = state.reserve(change)?;
    state.commit(ready);
    Ok(step)
}
