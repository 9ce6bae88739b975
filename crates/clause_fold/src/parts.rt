//! The atoms and rows of a clause at positions, and the others.

ghost use Rattle.std.specs.Prelude.{◌≡◌, ◌<◌, ◌≤◌, ◌-◌, suc, ℕ, length, slice_index_or, None, IfOk, OnOk, ◌++◌, ◌∷◌, []};
ghost use Rattle.fold_model.specs.Positions as spec;

use crate::positions::is_in;
use clause_store::Row;
use sqlite_items::Items;
use std::alloc::Global;
use term_store::{NoMemory, Term};

/// The term at a position.
fn term_at(terms: &[Term], position: u32) -> Term
    requires { (0 < position) × (position ≤ length terms.now) }
    ensures { (none : ℕ) → result ≡ slice_index_or terms.now (position - 1) none }
{
    terms[position as usize - 1]
}

/// The terms at these positions, in the order of the positions.
#[tactic(auto, using(crate::proofs::Elements::inside_at, crate::proofs::Elements::at_more))]
pub fn at_positions(
    alloc: Global,
    terms: &[Term],
    positions: &[u32],
) -> Result<Items<Term>, NoMemory>
    requires { spec.first_outside (length terms.now) positions.now ≡ None }
    ensures { IfOk result (λ ts. (none : ℕ) → ts ≡ spec.at_positions none terms.now positions.now) }
{
    let mut found = Items::new(alloc);
    for position in positions {
        found.push(term_at(terms, *position))?;
    }
    Ok(found)
}

/// Whether the element at a place, counted from 0, is at one of these positions, which count from 1.
fn is_given(positions: &[u32], place: usize) -> bool
    requires { place ≤ 4096 }
    ensures { result ≡ spec.is_in positions.now (suc place) }
{
    is_in(positions, place as u32 + 1)
}

/// The terms whose positions are not given, in their own order.
#[tactic(auto, using(crate::proofs::Elements::others_skip, crate::proofs::Elements::others_more))]
pub fn others(alloc: Global, positions: &[u32], terms: &[Term]) -> Result<Items<Term>, NoMemory>
    requires { length terms.now ≤ 4096 }
    ensures { IfOk result (λ ts. ts ≡ spec.others positions.now terms.now) }
{
    let mut left = Items::new(alloc);
    for i in 0..terms.len() {
        if !is_given(positions, i) {
            left.push(terms[i])?;
        }
    }
    Ok(left)
}

/// The terms with this one in the place of the first whose position is given, without the others of these.
#[tactic(auto, using(crate::proofs::Elements::others_skip, crate::proofs::Elements::others_more, crate::proofs::Elements::replaced_put, crate::proofs::Elements::replaced_more))]
pub fn replaced(
    alloc: Global,
    term: Term,
    positions: &[u32],
    terms: &[Term],
) -> Result<Items<Term>, NoMemory>
    requires { length terms.now ≤ 4096 }
    ensures { IfOk result (λ ts. ts ≡ spec.replaced term positions.now terms.now) }
{
    let mut made = Items::new(alloc);
    let mut is_put = false;
    for i in 0..terms.len() {
        if !is_given(positions, i) {
            made.push(terms[i])?;
        } else if !is_put {
            made.push(term)?;
            is_put = true;
        }
    }
    Ok(made)
}

/// One more row, the last, which equals this one.
fn push_copy(alloc: Global, rows: &mut Items<Row>, row: &Row) -> Result<(), NoMemory>
    ensures { OnOk result (rows.new ≡ rows.old ++ row.now ∷ []) }
{
    match row.copy(alloc) {
        Ok(copy) => Ok(rows.push(copy)?),
        Err(_) => Err(NoMemory),
    }
}

/// Copies of the rows whose positions are given, in their own order.
#[tactic(auto, using(crate::proofs::Elements::chosen_skip, crate::proofs::Elements::chosen_more))]
pub fn chosen_rows(alloc: Global, positions: &[u32], rows: &[Row]) -> Result<Items<Row>, NoMemory>
    requires { length rows.now ≤ 4096 }
    ensures { IfOk result (λ rs. rs ≡ spec.chosen positions.now rows.now) }
{
    let mut kept = Items::new(alloc);
    for i in 0..rows.len() {
        if is_given(positions, i) {
            push_copy(alloc, &mut kept, &rows[i])?;
        }
    }
    Ok(kept)
}

/// Copies of the rows whose positions are not given, in their own order.
#[tactic(auto, using(crate::proofs::Elements::others_skip, crate::proofs::Elements::others_more))]
pub fn other_rows(alloc: Global, positions: &[u32], rows: &[Row]) -> Result<Items<Row>, NoMemory>
    requires { length rows.now ≤ 4096 }
    ensures { IfOk result (λ rs. rs ≡ spec.others positions.now rows.now) }
{
    let mut left = Items::new(alloc);
    for i in 0..rows.len() {
        if !is_given(positions, i) {
            push_copy(alloc, &mut left, &rows[i])?;
        }
    }
    Ok(left)
}
