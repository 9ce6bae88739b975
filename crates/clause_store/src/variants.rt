//! Clauses that are equal up to the numbers of their variables.

ghost use Rattle.std.specs.Prelude.{◌≡◌, ◌↔◌, IsTrue};
ghost use Rattle.term_store.specs.Trees.{trees_at, AreIn};
ghost use Rattle.clause_model.specs.Variants.{IsClosed, AreVariants};
ghost use Rattle.clause_store.specs.Stored.{clause_in, IsStored};

use crate::clause::Clause;
use clp_model::Sort;
use lin_row::Row;
use term_store::{Store, Term};

/// Whether the sorts are equal.
fn same_sorts(a: &[Sort], b: &[Sort]) -> bool
    ensures { IsTrue result ↔ (a.now ≡ b.now) }
{
    a == b
}

/// Whether the rows are equal.
fn same_rows(a: &[Row], b: &[Row]) -> bool
    ensures { IsTrue result ↔ (a.now ≡ b.now) }
{
    a == b
}

/// Whether the terms have equal trees.
fn same_terms(store: &Store, a: &[Term], b: &[Term]) -> bool
    requires left { AreIn store.now a.now }
    requires right { AreIn store.now b.now }
    ensures { IsTrue result ↔ (trees_at store.now a.now ≡ trees_at store.now b.now) }
{
    match (a.split_first(), b.split_first()) {
        (None, None) => true,
        (Some((x, a)), Some((y, b))) => store.same(*x, *y) && same_terms(store, a, b),
        _ => false,
    }
}

/// Whether the clauses are equal.
fn are_equal(store: &Store, a: &Clause, b: &Clause) -> bool
    requires first { IsStored store.now a.now }
    requires second { IsStored store.now b.now }
    ensures { IsTrue result ↔ (clause_in store.now a.now ≡ clause_in store.now b.now) }
{
    if !same_sorts(a.sorts.as_slice(), b.sorts.as_slice()) {
        return false;
    }
    if !same_rows(a.rows.as_slice(), b.rows.as_slice()) {
        return false;
    }
    if !store.same(a.head, b.head) {
        return false;
    }
    same_terms(store, a.atoms.as_slice(), b.atoms.as_slice())
}

/// Whether the clauses are equal. They are canonical, so closed clauses, whose row variables are all in the head or an
/// atom, are equal exactly where a renaming that keeps sorts maps one to the other. It takes no memory.
pub fn variant(store: &Store, a: &Clause, b: &Clause) -> bool
    requires first { IsStored store.now a.now }
    requires second { IsStored store.now b.now }
    ensures equal { IsTrue result ↔ (clause_in store.now a.now ≡ clause_in store.now b.now) }
    ensures renamed { IsClosed (clause_in store.now a.now) → IsClosed (clause_in store.now b.now) → IsTrue result ↔ AreVariants (clause_in store.now a.now) (clause_in store.now b.now) }
{
    are_equal(store, a, b)
}
