//! What is asked of a definition: its head is a predicate of variables, each another one, and no variable is in its head
//! alone or in its rows alone.

ghost use Rattle.std.specs.Prelude.{◌≡◌, ◌<◌, ◌≤◌, map, take, length, IfOk, []};
ghost use Rattle.clp_model.specs.Trees.{variables, variables_in};
ghost use Rattle.clause_model.specs.Variables.{rows_variables};
ghost use Rattle.term_store.specs.Trees.{AreIn};
ghost use Rattle.clause_store.specs.Stored.{atom_at, atoms_at, clause_in, IsStored};
ghost use Rattle.fold_model.specs.Definitions as spec;
ghost use Rattle.fold_model.specs.Positions.{is_in};
ghost use Rattle.fold_model.specs.Internal.{number_in};
ghost use Rattle.clause_fold.specs.Marks.{is_marked_alone, is_marked_loose, Are};

use crate::marks::Marks;
use clause_store::Clause;
use std::alloc::Global;
use term_store::{Look, NoMemory, Store, Term};

/// The number of a term that is a variable, and 0 of another.
#[tactic(auto, using(crate::proofs::Arguments::number_var, crate::proofs::Arguments::number_app))]
pub(crate) fn number_in(store: &Store, t: Term) -> u32
    requires { t < length store.now }
    ensures { result ≡ number_in (atom_at store.now t) }
{
    match store.look(t) {
        Look::Var(number, _) => number,
        Look::App(_, _) => 0,
    }
}

/// Whether one of the terms is the variable of this number.
fn has_variable(store: &Store, terms: &[Term], number: u32) -> bool
    requires { AreIn store.now terms.now }
    ensures { result ≡ is_in (map number_in (atoms_at store.now terms.now)) number }
{
    for term in terms {
        if number_in(store, *term) == number {
            return true;
        }
    }
    false
}

/// Whether the term is a variable, and none of those before.
#[tactic(auto, using(crate::proofs::Arguments::other_var))]
fn is_other_variable(store: &Store, before: &[Term], t: Term) -> bool
    requires before { AreIn store.now before.now }
    requires within { t < length store.now }
    ensures { result ≡ spec.is_other_variable (map number_in (atoms_at store.now before.now)) (atom_at store.now t) }
{
    match store.look(t) {
        Look::Var(number, _) => !has_variable(store, before, number),
        Look::App(_, _) => false,
    }
}

/// The terms before a place.
fn front(terms: &[Term], place: usize) -> &[Term]
    requires { place < length terms.now }
    ensures { result.now ≡ take place terms.now }
{
    &terms[..place]
}

/// The first of these that is no variable, or is one that stands before. As long as they are variables, each another one,
/// they are no more than a clause has.
fn first_wrong(store: &Store, args: &[Term]) -> Option<u32>
    requires within { AreIn store.now args.now }
    requires few { length args.now ≤ 4096 }
    ensures { result ≡ spec.first_wrong [] 1 (atoms_at store.now args.now) }
{
    for i in 0..args.len() {
        if !is_other_variable(store, front(args, i), args[i]) {
            return Some(i as u32 + 1);
        }
    }
    None
}

/// The first argument of the head that is no variable, or is one that stands before.
#[tactic(auto, using(crate::proofs::Arguments::arguments_are, crate::proofs::Arguments::few_arguments))]
pub fn wrong_argument(store: &Store, n: &Clause) -> Option<u32>
    requires { IsStored store.now n.now }
    ensures { result ≡ spec.wrong_argument (clause_in store.now n.now) }
{
    match store.look(n.head) {
        Look::Var(_, _) => unreachable!(),
        Look::App(_, args) => first_wrong(store, args),
    }
}

/// The variables of the head of a clause.
pub(crate) fn head_marks(alloc: Global, store: &Store, c: &Clause) -> Result<Marks, NoMemory>
    requires { IsStored store.now c.now }
    ensures { IfOk result (λ m. Are m (length c.now.sorts) (variables (atom_at store.now c.now.head))) }
{
    let mut marks = Marks::new(alloc, c.sorts.len())?;
    marks.add_term(store, c.head);
    Ok(marks)
}

/// The variables of the atoms of its body.
pub(crate) fn body_marks(alloc: Global, store: &Store, c: &Clause) -> Result<Marks, NoMemory>
    requires { IsStored store.now c.now }
    ensures { IfOk result (λ m. Are m (length c.now.sorts) (variables_in (atoms_at store.now c.now.atoms))) }
{
    let mut marks = Marks::new(alloc, c.sorts.len())?;
    marks.add_terms(store, c.atoms.as_slice());
    Ok(marks)
}

/// The variables of its rows.
fn row_marks(alloc: Global, _store: &Store, c: &Clause) -> Result<Marks, NoMemory>
    requires { IsStored _store.now c.now }
    ensures { IfOk result (λ m. Are m (length c.now.sorts) (rows_variables c.now.rows)) }
{
    let mut marks = Marks::new(alloc, c.sorts.len())?;
    marks.add_rows(c.rows.as_slice());
    Ok(marks)
}

/// Whether a variable is marked in the first table alone.
fn is_alone(ours: &Marks, theirs: &Marks, others: &Marks, number: u32) -> bool
    ensures { result ≡ is_marked_alone ours.now theirs.now others.now number }
{
    ours.has(number) && !theirs.has(number) && !others.has(number)
}

/// Whether a variable is in the head alone, or in rows alone.
fn is_loose(head: &Marks, rows: &Marks, body: &Marks, number: u32) -> bool
    ensures { result ≡ is_marked_loose head.now rows.now body.now number }
{
    is_alone(head, rows, body, number) || is_alone(rows, head, body, number)
}

/// The least variable that is in the head alone, or in rows alone.
pub fn loose_variable(alloc: Global, store: &Store, n: &Clause) -> Result<Option<u32>, NoMemory>
    requires { IsStored store.now n.now }
    ensures { IfOk result (λ r. r ≡ spec.loose_variable (clause_in store.now n.now)) }
{
    let head = head_marks(alloc, store, n)?;
    let rows = row_marks(alloc, store, n)?;
    let body = body_marks(alloc, store, n)?;
    Ok(first_loose(store, n, &head, &rows, &body))
}

/// The same, by tables of the variables that the parts have.
fn first_loose(_store: &Store, n: &Clause, head: &Marks, rows: &Marks, body: &Marks) -> Option<u32>
    requires stored { IsStored _store.now n.now }
    requires head { Are head.now (length n.now.sorts) (variables (atom_at _store.now n.now.head)) }
    requires rows { Are rows.now (length n.now.sorts) (rows_variables n.now.rows) }
    requires body { Are body.now (length n.now.sorts) (variables_in (atoms_at _store.now n.now.atoms)) }
    ensures { result ≡ spec.loose_variable (clause_in _store.now n.now) }
{
    for i in 0..n.sorts.len() {
        let number = i as u32 + 1;
        if is_loose(head, rows, body, number) {
            return Some(number);
        }
    }
    None
}
