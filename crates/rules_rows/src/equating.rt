ghost use Rattle.std.specs.Prelude.{◌≡◌, ◌≢◌, ◌⊎◌, ◌<◌, ◌≤◌, None, Ok, Err, OnOk, OnErr, IfOk, IfErr, IfNone, length};
ghost use Rattle.farkas_check.specs.declared.cert.Cert.{Cert};
ghost use Rattle.clause_model.specs.Canonical.{new_clause, Overflow as RowOverflow};
ghost use Rattle.clause_store.specs.Stored.{clause_in, raw_in, IsNum, IsRaw, IsStored};
ghost use Rattle.replace_model.specs.Rows.{equated};
ghost use Rattle.map_model.specs.declared.refusal.Refusal.TheVariants.{NoMemory};
ghost use Rattle.map_model.specs.Replacing as spec;
ghost use Rattle.map_state.specs.Seen.{state_of};
ghost use Rattle.map_state.specs.Changes.{placed};
ghost use Rattle.map_state.specs.Filled.{IsFilled};

use crate::equation::equation;
use crate::replacing::{replaced, replaced_all, replaced_rows};
use crate::variables::{loose, not_number};
use clause_store::{Clause, RawClause};
use lin_row::RowFault;
use map_state::{Refusal, Replacement, Shown, State, Step, in_place};
use row_showing::show_row;
use sqlite_items::Items;
use std::alloc::Global;
use term_store::Store;

/// `equate C var V to U show ..`: the variable U takes the place of V everywhere in a clause whose rows make the two
/// equal, by the given certificate or the finder's for the equation of the lesser variable minus the greater. The new clause
/// takes the next free id and keeps the mark. Refused where the clause isn't live (`NoClause`), where it has no such variable
/// (`LooseVariable` of V, then of U), where both are the same (`RepeatedPosition`), where one stands for any value
/// (`NotNumber` of V, then of U), where the equation isn't shown (`BadMultipliers`, `Overflow(1)`, `TooLarge(Chain)`,
/// `Unentailed(1)`), where a row of the new clause leaves the range (`Overflow(0)`), or where a limit would be past
/// (`TooLarge`), the first of these in this order, or where memory is wanting. The state then stays as it was. Answers the
/// step with the certificate in it.
pub fn equate(state: &mut State, id: u32, var: u32, to: u32, show: &Shown) -> Result<Step, Refusal>
    requires { length (state_of state.old).steps < 100000 }
    ensures accepted { OnOk result (spec.equate_after (state_of state.old) id var to show.now ≡ Ok (state_of state.new)) }
    ensures filled { IfOk result (IsFilled (state_of state.old) (state_of state.new) (Step.Equate id var to)) }
    ensures refused { IfErr result (λ e. (e ≡ Refusal.NoMemory) ⊎ (spec.equate_after (state_of state.old) id var to show.now ≡ Err e)) }
    ensures unchanged { OnErr result (state_of state.new ≡ state_of state.old) }
{
    let replacement = equated(state, id, var, to, show)?;
    in_place(state, id, replacement)
}

/// What takes the clause's place, or the first broken condition.
#[tactic(auto, using(map_state::proofs::Placed::few_rows))]
fn equated(state: &State, id: u32, var: u32, to: u32, show: &Shown) -> Result<Replacement, Refusal>
    ensures accepted { IfOk result (λ r. spec.equate_after (state_of state.now) id var to show.now ≡ placed (state_of state.now) id r) }
    ensures raw { IfOk result (λ r. IsRaw r.scratch r.raw) }
    ensures step { IfOk result (λ r. (c : Cert) × (r.step ≡ Step.Equate id var to (Shown.Given c))) }
    ensures refused { IfErr result (λ e. (e ≡ Refusal.NoMemory) ⊎ (spec.equate_after (state_of state.now) id var to show.now ≡ Err e)) }
{
    let Some(entry) = state.live_entry(id) else {
        return Err(Refusal::NoClause(id));
    };
    if let Some(refusal) = variables_broken(state.store(), &entry.clause, var, to) {
        return Err(refusal);
    }
    let alloc = state.alloc();
    let target = equation(alloc, var, to);
    let certificate = show_row(alloc, entry.clause.rows.as_slice(), &target, 1, show)?;
    let mut scratch = Store::new(alloc);
    let raw = with_other(alloc, &mut scratch, state.store(), &entry.clause, var, to)?;
    let step = Step::Equate {
        id,
        var,
        to,
        show: Shown::Given(certificate),
    };
    Ok(Replacement { raw, step, scratch })
}

/// The first broken condition on the two variables.
fn variables_broken(store: &Store, c: &Clause, var: u32, to: u32) -> Option<Refusal>
    ensures value { result ≡ spec.equate_broken (clause_in store.now c.now) var to }
    ensures different { IfNone result (var ≢ to) }
{
    if let Some(refusal) = loose(store, c, var) {
        return Some(refusal);
    }
    if let Some(refusal) = loose(store, c, to) {
        return Some(refusal);
    }
    if var == to {
        return Some(Refusal::RepeatedPosition(to));
    }
    match not_number(store, c, var) {
        Some(refusal) => Some(refusal),
        None => not_number(store, c, to),
    }
}

/// How many variables a clause of the store has.
fn variable_count(_store: &Store, c: &Clause) -> u32
    requires { IsStored _store.now c.now }
    ensures value { result ≡ length c.now.sorts }
    ensures small { result ≤ 256 }
{
    c.sorts.len() as u32
}

/// The parts of a clause with the one variable in the place of the other, in another store.
fn with_other(
    alloc: Global,
    scratch: &mut Store,
    store: &Store,
    c: &Clause,
    var: u32,
    to: u32,
) -> Result<RawClause, Refusal>
    requires stored { IsStored store.now c.now }
    requires unbroken { spec.equate_broken (clause_in store.now c.now) var to ≡ None }
    ensures same { IfOk result (λ raw. new_clause (raw_in scratch.new raw) ≡ new_clause (equated (clause_in store.now c.now) var to)) }
    ensures raw { IfOk result (λ raw. IsRaw scratch.new raw) }
    ensures refused { IfErr result (λ e. (e ≡ Refusal.NoMemory) ⊎ ((e ≡ Refusal.Overflow 0) × (new_clause (equated (clause_in store.now c.now) var to) ≡ Err RowOverflow))) }
{
    let rows = match replaced_rows(alloc, c.rows.as_slice(), variable_count(store, c), var, to) {
        Ok(rows) => rows,
        Err(RowFault::Overflow) => return Err(Refusal::Overflow(0)),
        Err(RowFault::NoMemory) => return Err(Refusal::NoMemory),
    };
    let head = replaced(alloc, scratch, store, c.head, var, to)?;
    let atoms = replaced_all(alloc, scratch, store, c.atoms.as_slice(), var, to)?;
    let sorts = Items::from_slice(alloc, c.sorts.as_slice())?;
    Ok(RawClause {
        head,
        rows,
        atoms,
        sorts,
    })
}
