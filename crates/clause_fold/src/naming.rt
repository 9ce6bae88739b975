//! The variables of a definition that are in no atom of its body, and the variables of the clause that are named for them.

ghost use Rattle.std.specs.Prelude.{◌≡◌, ◌≤◌, length, IfOk};
ghost use Rattle.clp_model.specs.Trees.{variables_in};
ghost use Rattle.clause_model.specs.Variables.{is_num};
ghost use Rattle.clause_store.specs.Stored.{atoms_at, clause_in, IsStored};
ghost use Rattle.fold_model.specs.Images as spec;
ghost use Rattle.clause_fold.specs.Marks.{Are};

use crate::definitions::body_marks;
use crate::marks::Marks;
use crate::positions::in_range;
use clause_store::{Clause, sort_in};
use clp_model::Sort;
use std::alloc::Global;
use term_store::{NoMemory, Store};

/// How many variables are in no atom of the body.
fn outer_count(_store: &Store, n: &Clause, body: &Marks) -> usize
    requires stored { IsStored _store.now n.now }
    requires body { Are body.now (length n.now.sorts) (variables_in (atoms_at _store.now n.now.atoms)) }
    ensures value { result ≡ length (spec.outer_variables (clause_in _store.now n.now)) }
    ensures few { result ≤ 256 }
{
    let mut count = 0;
    for i in 0..n.sorts.len() {
        if !body.has(i as u32 + 1) {
            count += 1;
        }
    }
    count
}

/// Whether the number is that of a Num variable of the clause.
fn is_number_of(_store: &Store, c: &Clause, number: u32) -> bool
    ensures { result ≡ spec.is_number_of (clause_in _store.now c.now) number }
{
    in_range(c.sorts.len(), number) && is_num(sort_in(c.sorts.as_slice(), number))
}

fn is_num(sort: Sort) -> bool
    ensures { result ≡ is_num sort }
{
    match sort {
        Sort::Num => true,
        Sort::Any => false,
    }
}

/// The first place, from 1, whose number is not that of a Num variable of the clause.
fn first_no_number(store: &Store, c: &Clause, with: &[u32]) -> Option<u32>
    requires { length with.now ≤ 256 }
    ensures { result ≡ spec.first_no_number (clause_in store.now c.now) 1 with.now }
{
    for i in 0..with.len() {
        if !is_number_of(store, c, with[i]) {
            return Some(i as u32 + 1);
        }
    }
    None
}

/// Why these variables of the clause are not named for the definition's variables that are in none of its atoms, in
/// order: 0 for their number, else the first place whose number is not that of a Num variable of the clause.
pub fn bad_with(
    alloc: Global,
    store: &Store,
    n: &Clause,
    c: &Clause,
    with: &[u32],
) -> Result<Option<u32>, NoMemory>
    requires definition { IsStored store.now n.now }
    requires clause { IsStored store.now c.now }
    ensures { IfOk result (λ r. r ≡ spec.bad_with (clause_in store.now n.now) (clause_in store.now c.now) with.now) }
{
    let body = body_marks(alloc, store, n)?;
    if with.len() != outer_count(store, n, &body) {
        return Ok(Some(0));
    }
    Ok(first_no_number(store, c, with))
}
