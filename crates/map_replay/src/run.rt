ghost use Rattle.std.specs.Prelude.{◌≡◌, ◌⊎◌, ◌<◌, ◌++◌, ◌∷◌, [], Ok, Err, OnOk, OnErr, IfOk, IfErr, length};
ghost use Rattle.map_model.specs.declared.refusal.Refusal.TheVariants.{NoMemory};
ghost use Rattle.map_model.specs.After as spec;
ghost use Rattle.map_state.specs.Seen.{state_of};
ghost use Rattle.map_replay.specs.Sources.{HasFormedSource};

use clause_store::Limit;
use map_model::{Refusal, Step};
use map_state::State;
use rules_drop::{delete_false, merge};
use rules_fold::fold;
use rules_rows::{add_row, drop_row, equate, project};
use rules_unfold::{define, unfold};

const MAX_STEPS: u32 = 100_000;

/// One step; the clause of a definition may be loaded, as each that is read. Answers the filled step, as it stands last
/// in the history then, or the first broken condition, and then the state is as before.
pub fn apply(state: &mut State, step: &Step) -> Result<Step, Refusal>
    requires { HasFormedSource step.now }
    ensures accepted { OnOk result (spec.after (state_of state.old) step.now ≡ Ok (state_of state.new)) }
    ensures filled { IfOk result (λ filled. (state_of state.new).steps ≡ (state_of state.old).steps ++ filled ∷ []) }
    ensures refused { IfErr result (λ e. (e ≡ Refusal.NoMemory) ⊎ (spec.after (state_of state.old) step.now ≡ Err e)) }
    ensures unchanged { OnErr result (state_of state.new ≡ state_of state.old) }
{
    if state.steps() >= MAX_STEPS {
        return Err(Refusal::TooLarge(Limit::Steps));
    }
    by_rule(state, step)
}

/// One step by its rule, where there may be one more.
fn by_rule(state: &mut State, step: &Step) -> Result<Step, Refusal>
    requires steps { length (state_of state.old).steps < 100000 }
    requires source { HasFormedSource step.now }
    ensures accepted { OnOk result (spec.by_rule (state_of state.old) step.now ≡ Ok (state_of state.new)) }
    ensures filled { IfOk result (λ filled. (state_of state.new).steps ≡ (state_of state.old).steps ++ filled ∷ []) }
    ensures refused { IfErr result (λ e. (e ≡ Refusal.NoMemory) ⊎ (spec.by_rule (state_of state.old) step.now ≡ Err e)) }
    ensures unchanged { OnErr result (state_of state.new ≡ state_of state.old) }
{
    match step {
        Step::Define { source } => define(state, source),
        Step::Unfold { id, at } => unfold(state, *id, *at),
        Step::Fold {
            id,
            at,
            by,
            with,
            keep,
            show,
        } => fold(
            state,
            *id,
            at.as_slice(),
            by,
            with.as_slice(),
            keep.as_slice(),
            show,
        ),
        Step::DeleteFalse { id, show } => delete_false(state, *id, show),
        Step::Merge { id, first, second } => merge(state, *id, *first, *second),
        Step::Add { id, row, show } => add_row(state, *id, row, show),
        Step::Drop { id, row, show } => drop_row(state, *id, *row, show),
        Step::Project { id, var } => project(state, *id, *var),
        Step::Equate { id, var, to, show } => equate(state, *id, *var, *to, show),
    }
}
