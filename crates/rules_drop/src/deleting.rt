ghost use Rattle.std.specs.Prelude.{◌≡◌, ◌⊎◌, ◌<◌, Ok, Err, OnOk, OnErr, IfOk, IfErr, length};
ghost use Rattle.farkas_check.specs.declared.cert.Cert.{Cert};
ghost use Rattle.map_model.specs.declared.refusal.Refusal.TheVariants.{NoMemory};
ghost use Rattle.map_model.specs.Deleting.{delete_false_after};
ghost use Rattle.map_model.specs.Rewriting.{within_limits};
ghost use Rattle.map_state.specs.Seen.{state_of};
ghost use Rattle.map_state.specs.Changes.{IsChange, changed};
ghost use Rattle.map_state.specs.Filled.{IsFilled};

use map_state::{Change, Refusal, Shown, State, Step, removed, rewrite};
use row_showing::show_false;
use term_store::Store;

/// `delete C false show ..`: a clause is removed whose rows have no common solution, by the given certificate or the
/// finder's. Refused where the clause isn't live (`NoClause`), where the given certificate is wrong (`BadMultipliers` with
/// 1), where the finder's chain leaves its range (`Overflow(1)`, `TooLarge(Chain)`) or finds that the rows have a common
/// solution (`Satisfiable`), the first of these in this order, or where memory is wanting. The state then stays as it was.
/// Answers the step with the certificate in it.
pub fn delete_false(state: &mut State, id: u32, show: &Shown) -> Result<Step, Refusal>
    requires { length (state_of state.old).steps < 100000 }
    ensures accepted { OnOk result (delete_false_after (state_of state.old) id show.now ≡ Ok (state_of state.new)) }
    ensures filled { IfOk result (IsFilled (state_of state.old) (state_of state.new) (Step.DeleteFalse id)) }
    ensures refused { IfErr result (λ e. (e ≡ Refusal.NoMemory) ⊎ (delete_false_after (state_of state.old) id show.now ≡ Err e)) }
    ensures unchanged { OnErr result (state_of state.new ≡ state_of state.old) }
{
    let change = deletion(state, id, show)?;
    rewrite(state, change)
}

/// What the deletion changes, or its first broken condition.
#[tactic(auto, using(map_state::proofs::Placed::few_rows))]
fn deletion(state: &State, id: u32, show: &Shown) -> Result<Change, Refusal>
    requires { length (state_of state.now).steps < 100000 }
    ensures accepted { IfOk result (λ change. delete_false_after (state_of state.now) id show.now ≡ within_limits (changed (state_of state.now) change)) }
    ensures change { IfOk result (λ change. IsChange (state_of state.now) change) }
    ensures step { IfOk result (λ change. (c : Cert) × (change.step ≡ Step.DeleteFalse id (Shown.Given c))) }
    ensures refused { IfErr result (λ e. (e ≡ Refusal.NoMemory) ⊎ (delete_false_after (state_of state.now) id show.now ≡ Err e)) }
{
    let Some(entry) = state.live_entry(id) else {
        return Err(Refusal::NoClause(id));
    };
    let alloc = state.alloc();
    let certificate = show_false(alloc, entry.clause.rows.as_slice(), show)?;
    let step = Step::DeleteFalse {
        id,
        show: Shown::Given(certificate),
    };
    Ok(removed(alloc, Store::new(alloc), id, step)?)
}
