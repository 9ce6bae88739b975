ghost use Rattle.std.specs.Prelude.{◌≡◌, ◌⊎◌, ◌<◌, None, Ok, Err, OnOk, OnErr, IfOk, IfErr, length};
ghost use Rattle.farkas_check.specs.declared.cert.Cert.{Cert};
ghost use Rattle.clause_store.specs.Stored.{clause_in, raw_in, IsRaw, IsStored};
ghost use Rattle.replace_model.specs.Rows.{with_row};
ghost use Rattle.map_model.specs.declared.refusal.Refusal.TheVariants.{NoMemory};
ghost use Rattle.map_model.specs.Replacing as spec;
ghost use Rattle.map_state.specs.Seen.{state_of};
ghost use Rattle.map_state.specs.Changes.{placed};
ghost use Rattle.map_state.specs.Filled.{IsFilled};

use crate::rebuilding::with_rows;
use crate::variables::variables_broken;
use clause_store::{Clause, RawClause, Row, copy_rows};
use lin_row::RowFault;
use map_state::{Refusal, Replacement, Shown, State, Step, in_place};
use row_showing::show_row;
use std::alloc::Global;
use term_store::{NoMemory, Store};

/// `add C row R show ..`: a row that the rows of a clause entail is put last, by the given certificate or the finder's.
/// The new clause takes the next free id and keeps the mark. Refused where the clause isn't live (`NoClause`), for the
/// row's first variable that the clause doesn't have (`LooseVariable`) or that stands for any value (`NotNumber`), where
/// the row isn't shown (`BadMultipliers`, `Overflow(1)`, `TooLarge(Chain)`, `Unentailed(1)`), or where a limit would be past
/// (`TooLarge`), the first of these in this order, or where memory is wanting. The state then stays as it was. Answers
/// the step with the certificate in it.
pub fn add_row(state: &mut State, id: u32, row: &Row, show: &Shown) -> Result<Step, Refusal>
    requires { length (state_of state.old).steps < 100000 }
    ensures accepted { OnOk result (spec.add_after (state_of state.old) id row.now show.now ≡ Ok (state_of state.new)) }
    ensures filled { IfOk result (IsFilled (state_of state.old) (state_of state.new) (Step.Add id row.now)) }
    ensures refused { IfErr result (λ e. (e ≡ Refusal.NoMemory) ⊎ (spec.add_after (state_of state.old) id row.now show.now ≡ Err e)) }
    ensures unchanged { OnErr result (state_of state.new ≡ state_of state.old) }
{
    let replacement = added(state, id, row, show)?;
    in_place(state, id, replacement)
}

/// What takes the clause's place, or the first broken condition.
#[tactic(auto, using(map_state::proofs::Placed::few_rows))]
fn added(state: &State, id: u32, row: &Row, show: &Shown) -> Result<Replacement, Refusal>
    ensures accepted { IfOk result (λ r. spec.add_after (state_of state.now) id row.now show.now ≡ placed (state_of state.now) id r) }
    ensures raw { IfOk result (λ r. IsRaw r.scratch r.raw) }
    ensures step { IfOk result (λ r. (c : Cert) × (r.step ≡ Step.Add id row.now (Shown.Given c))) }
    ensures refused { IfErr result (λ e. (e ≡ Refusal.NoMemory) ⊎ (spec.add_after (state_of state.now) id row.now show.now ≡ Err e)) }
{
    let Some(entry) = state.live_entry(id) else {
        return Err(Refusal::NoClause(id));
    };
    if let Some(refusal) = variables_broken(state.store(), &entry.clause, row.pairs()) {
        return Err(refusal);
    }
    let alloc = state.alloc();
    let certificate = show_row(alloc, entry.clause.rows.as_slice(), row, 1, show)?;
    let mut scratch = Store::new(alloc);
    let raw = with_row(alloc, &mut scratch, state.store(), &entry.clause, row)?;
    let step = Step::Add {
        id,
        row: copied(alloc, row)?,
        show: Shown::Given(certificate),
    };
    Ok(Replacement { raw, step, scratch })
}

/// The parts of a clause with the row put last, in another store.
fn with_row(
    alloc: Global,
    scratch: &mut Store,
    store: &Store,
    c: &Clause,
    row: &Row,
) -> Result<RawClause, NoMemory>
    requires stored { IsStored store.now c.now }
    requires variables { spec.variables_broken (clause_in store.now c.now) row.now.pairs ≡ None }
    ensures is { IfOk result (λ raw. raw_in scratch.new raw ≡ with_row (clause_in store.now c.now) row.now) }
    ensures raw { IfOk result (λ raw. IsRaw scratch.new raw) }
{
    // What is known of a row goes with its parts.
    let _ = row.rel();
    let mut rows = copy_rows(alloc, c.rows.as_slice())?;
    rows.push(copied(alloc, row)?)?;
    with_rows(alloc, scratch, store, c, rows)
}

/// An equal row.
fn copied(alloc: Global, row: &Row) -> Result<Row, NoMemory>
    ensures { IfOk result (λ copy. copy ≡ row.now) }
{
    match row.copy(alloc) {
        Ok(copy) => Ok(copy),
        Err(RowFault::Overflow | RowFault::NoMemory) => Err(NoMemory),
    }
}
