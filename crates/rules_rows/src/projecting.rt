ghost use Rattle.std.specs.Prelude.{◌≡◌, ◌⊎◌, ◌<◌, ◌++◌, ◌∷◌, [], None, Some, All, Ok, Err, OnOk, OnErr, IfOk, IfErr, length};
ghost use Rattle.linear_model.specs.Elimination.{elimination};
ghost use Rattle.lin_row.specs.Rows.{IsKept};
ghost use Rattle.clause_model.specs.Variables.{rows_variables};
ghost use Rattle.clause_store.specs.Stored.{clause_in, raw_in, IsNum, IsRaw, IsStored};
ghost use Rattle.replace_model.specs.Rows.{projected};
ghost use Rattle.map_model.specs.declared.refusal.Refusal.TheVariants.{NoMemory};
ghost use Rattle.map_model.specs.Replacing as spec;
ghost use Rattle.map_model.specs.Rewriting.{or_next};
ghost use Rattle.map_state.specs.Seen.{state_of};
ghost use Rattle.map_state.specs.Changes.{placed};

use crate::rebuilding::with_rows;
use crate::uses::{any_uses, uses};
use crate::variables::no_number;
use clause_store::{Clause, Limit, RawClause, Row};
use elim_rows::{ElimFault, eliminate};
use map_state::{Refusal, Replacement, State, Step, in_place};
use sqlite_items::Items;
use std::alloc::Global;
use term_store::Store;

/// `project C var V`: the rows of a clause are replaced by their elimination of a variable that is in rows alone. The new
/// clause takes the next free id and keeps the mark. Refused where the clause isn't live (`NoClause`), where it has no such
/// variable (`LooseVariable`) or this stands for any value (`NotNumber`), where the variable is in the head or an atom
/// (`StillUsed`), where a row that the elimination makes leaves the range (`Overflow(0)`), where it leaves more than 128
/// rows (`TooLarge(Rows)`), or where a limit would be past (`TooLarge`), the first of these in this order, or where memory is
/// wanting. The state then stays as it was.
pub fn project(state: &mut State, id: u32, var: u32) -> Result<Step, Refusal>
    requires { length (state_of state.old).steps < 100000 }
    ensures accepted { OnOk result (spec.project_after (state_of state.old) id var ≡ Ok (state_of state.new)) }
    ensures filled { IfOk result (λ step. step ≡ Step.Project id var) }
    ensures kept { IfOk result (λ step. (state_of state.new).steps ≡ (state_of state.old).steps ++ step ∷ []) }
    ensures refused { IfErr result (λ e. (e ≡ Refusal.NoMemory) ⊎ (spec.project_after (state_of state.old) id var ≡ Err e)) }
    ensures unchanged { OnErr result (state_of state.new ≡ state_of state.old) }
{
    let replacement = projected(state, id, var)?;
    in_place(state, id, replacement)
}

/// What takes the clause's place, or the first broken condition.
fn projected(state: &State, id: u32, var: u32) -> Result<Replacement, Refusal>
    ensures accepted { IfOk result (λ r. spec.project_after (state_of state.now) id var ≡ placed (state_of state.now) id r) }
    ensures raw { IfOk result (λ r. IsRaw r.scratch r.raw) }
    ensures step { IfOk result (λ r. r.step ≡ Step.Project id var) }
    ensures refused { IfErr result (λ e. (e ≡ Refusal.NoMemory) ⊎ (spec.project_after (state_of state.now) id var ≡ Err e)) }
{
    let Some(entry) = state.live_entry(id) else {
        return Err(Refusal::NoClause(id));
    };
    if let Some(refusal) = variable_broken(state.store(), &entry.clause, var) {
        return Err(refusal);
    }
    let alloc = state.alloc();
    let mut scratch = Store::new(alloc);
    let raw = without_variable(alloc, &mut scratch, state.store(), &entry.clause, var)?;
    let step = Step::Project { id, var };
    Ok(Replacement { raw, step, scratch })
}

/// The first broken condition on the variable.
fn variable_broken(store: &Store, c: &Clause, var: u32) -> Option<Refusal>
    requires { IsStored store.now c.now }
    ensures { result ≡ or_next (or_next (spec.loose (clause_in store.now c.now) var) (spec.not_number (clause_in store.now c.now) var)) (spec.still_used (clause_in store.now c.now) var) }
{
    match no_number(store, c, var) {
        Some(refusal) => Some(refusal),
        None => still_used(store, c, var),
    }
}

/// `StillUsed` where the variable is in the head or an atom.
fn still_used(store: &Store, c: &Clause, var: u32) -> Option<Refusal>
    requires { IsStored store.now c.now }
    ensures { result ≡ spec.still_used (clause_in store.now c.now) var }
{
    if uses(store, c.head, var) || any_uses(store, c.atoms.as_slice(), var) {
        Some(Refusal::StillUsed(var))
    } else {
        None
    }
}

/// The parts of a clause with the elimination of the variable as its rows, in another store.
fn without_variable(
    alloc: Global,
    scratch: &mut Store,
    store: &Store,
    c: &Clause,
    var: u32,
) -> Result<RawClause, Refusal>
    requires stored { IsStored store.now c.now }
    ensures is { IfOk result (λ raw. raw_in scratch.new raw ≡ projected (clause_in store.now c.now) var) }
    ensures raw { IfOk result (λ raw. IsRaw scratch.new raw) }
    ensures unbroken { OnOk result (spec.elimination_broken (clause_in store.now c.now) var ≡ None) }
    ensures refused { IfErr result (λ e. (e ≡ Refusal.NoMemory) ⊎ (spec.elimination_broken (clause_in store.now c.now) var ≡ Some e)) }
{
    let rows = eliminated(alloc, store, c, var)?;
    Ok(with_rows(alloc, scratch, store, c, rows)?)
}

/// The elimination of the variable from the rows of a clause.
#[tactic(auto, using(map_state::proofs::Placed::few_rows))]
fn eliminated(alloc: Global, store: &Store, c: &Clause, var: u32) -> Result<Items<Row>, Refusal>
    requires stored { IsStored store.now c.now }
    ensures rows { IfOk result (λ rows. rows ≡ elimination var c.now.rows) }
    ensures kept { IfOk result (All IsKept) }
    ensures nums { IfOk result (λ rows. All (IsNum c.now.sorts) (rows_variables rows)) }
    ensures unbroken { OnOk result (spec.elimination_broken (clause_in store.now c.now) var ≡ None) }
    ensures refused { IfErr result (λ e. (e ≡ Refusal.NoMemory) ⊎ (spec.elimination_broken (clause_in store.now c.now) var ≡ Some e)) }
{
    match eliminate(alloc, c.rows.as_slice(), var) {
        Ok(rows) => Ok(Items::from_vec(rows)),
        Err(ElimFault::Overflow) => Err(Refusal::Overflow(0)),
        Err(ElimFault::TooMany) => Err(Refusal::TooLarge(Limit::Rows)),
        Err(ElimFault::NoMemory) => Err(Refusal::NoMemory),
    }
}
