ghost use Rattle.std.specs.Prelude.{◌≡◌, ◌⊎◌, ◌<◌, ◌≤◌, ◌-◌, All, Ok, Err, OnOk, OnErr, IfOk, IfErr, length, remove};
ghost use Rattle.farkas_check.specs.declared.cert.Cert.{Cert};
ghost use Rattle.lin_row.specs.Rows.{IsKept};
ghost use Rattle.clause_model.specs.Variables.{rows_variables};
ghost use Rattle.clause_store.specs.Stored.{IsNum, IsRaw, IsStored};
ghost use Rattle.map_model.specs.declared.refusal.Refusal.TheVariants.{NoMemory};
ghost use Rattle.map_model.specs.Replacing.{drop_after, row_of};
ghost use Rattle.map_state.specs.Seen.{state_of};
ghost use Rattle.map_state.specs.Changes.{placed};
ghost use Rattle.map_state.specs.Filled.{IsFilled};

use crate::rebuilding::with_rows;
use clause_fold::in_range;
use clause_store::{Clause, Row, copy_rows};
use map_state::{Refusal, Replacement, Shown, State, Step, in_place};
use row_showing::show_row;
use sqlite_items::Items;
use std::alloc::Global;
use term_store::{NoMemory, Store};

/// `drop C row I show ..`: a row that the other rows of a clause entail is removed, by the given certificate or the
/// finder's, with one multiplier for each of these. The new clause takes the next free id and keeps the mark. Refused where
/// the clause isn't live (`NoClause`), where it has no row at the position (`NoRow`), where the row isn't shown
/// (`BadMultipliers`, `Overflow(1)`, `TooLarge(Chain)`, `Unentailed(1)`), or where a limit would be past (`TooLarge`), the
/// first of these in this order, or where memory is wanting. The state then stays as it was. Answers the step with the
/// certificate in it.
pub fn drop_row(state: &mut State, id: u32, row: u32, show: &Shown) -> Result<Step, Refusal>
    requires { length (state_of state.old).steps < 100000 }
    ensures accepted { OnOk result (drop_after (state_of state.old) id row show.now ≡ Ok (state_of state.new)) }
    ensures filled { IfOk result (IsFilled (state_of state.old) (state_of state.new) (Step.Drop id row)) }
    ensures refused { IfErr result (λ e. (e ≡ Refusal.NoMemory) ⊎ (drop_after (state_of state.old) id row show.now ≡ Err e)) }
    ensures unchanged { OnErr result (state_of state.new ≡ state_of state.old) }
{
    let replacement = dropped(state, id, row, show)?;
    in_place(state, id, replacement)
}

/// What takes the clause's place, or the first broken condition.
fn dropped(state: &State, id: u32, row: u32, show: &Shown) -> Result<Replacement, Refusal>
    ensures accepted { IfOk result (λ r. drop_after (state_of state.now) id row show.now ≡ placed (state_of state.now) id r) }
    ensures raw { IfOk result (λ r. IsRaw r.scratch r.raw) }
    ensures step { IfOk result (λ r. (c : Cert) × (r.step ≡ Step.Drop id row (Shown.Given c))) }
    ensures refused { IfErr result (λ e. (e ≡ Refusal.NoMemory) ⊎ (drop_after (state_of state.now) id row show.now ≡ Err e)) }
{
    let Some(entry) = state.live_entry(id) else {
        return Err(Refusal::NoClause(id));
    };
    if !in_range(entry.clause.rows.len(), row) {
        return Err(Refusal::NoRow(row));
    }
    let alloc = state.alloc();
    let Parted {
        row: target,
        others,
    } = split(alloc, state.store(), &entry.clause, row)?;
    let certificate = show_row(alloc, others.as_slice(), &target, 1, show)?;
    let mut scratch = Store::new(alloc);
    let raw = with_rows(alloc, &mut scratch, state.store(), &entry.clause, others)?;
    let step = Step::Drop {
        id,
        row,
        show: Shown::Given(certificate),
    };
    Ok(Replacement { raw, step, scratch })
}

/// A row of a clause, and its other rows.
#[derive(Drop)]
struct Parted {
    row: Row,
    others: Items<Row>,
}

/// The row at a position, and the other rows in their order.
fn split(alloc: Global, _store: &Store, c: &Clause, position: u32) -> Result<Parted, NoMemory>
    requires stored { IsStored _store.now c.now }
    requires position { (0 < position) × (position ≤ length c.now.rows) }
    ensures row { IfOk result (λ p. p.row ≡ row_of c.now.rows position) }
    ensures others { IfOk result (λ p. p.others ≡ remove c.now.rows (position - 1)) }
    ensures few { IfOk result (λ p. length p.others ≤ 128) }
    ensures kept { IfOk result (λ p. All IsKept p.others) }
    ensures nums { IfOk result (λ p. All (IsNum c.now.sorts) (rows_variables p.others)) }
{
    let mut others = copy_rows(alloc, c.rows.as_slice())?;
    let row = others.remove((position - 1) as usize);
    Ok(Parted { row, others })
}
