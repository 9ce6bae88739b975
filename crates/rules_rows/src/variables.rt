//! Which variables a clause has, and which of them stand for numbers.

ghost use Rattle.std.specs.Prelude.{◌≡◌};
ghost use Rattle.clause_store.specs.Stored.{clause_in};
ghost use Rattle.map_model.specs.Replacing as spec;
ghost use Rattle.map_model.specs.Rewriting.{or_next};

use clause_fold::in_range;
use clause_store::{Clause, sort_in};
use clp_model::Sort;
use map_state::Refusal;
use term_store::Store;

/// `LooseVariable` where the clause has no such variable.
pub(crate) fn loose(_store: &Store, c: &Clause, var: u32) -> Option<Refusal>
    ensures { result ≡ spec.loose (clause_in _store.now c.now) var }
{
    if in_range(c.sorts.len(), var) {
        None
    } else {
        Some(Refusal::LooseVariable(var))
    }
}

/// `NotNumber` where the variable stands for any value.
pub(crate) fn not_number(_store: &Store, c: &Clause, var: u32) -> Option<Refusal>
    ensures { result ≡ spec.not_number (clause_in _store.now c.now) var }
{
    match sort_in(c.sorts.as_slice(), var) {
        Sort::Num => None,
        Sort::Any => Some(Refusal::NotNumber(var)),
    }
}

/// The first of the two.
pub(crate) fn no_number(store: &Store, c: &Clause, var: u32) -> Option<Refusal>
    ensures { result ≡ or_next (spec.loose (clause_in store.now c.now) var) (spec.not_number (clause_in store.now c.now) var) }
{
    match loose(store, c, var) {
        Some(refusal) => Some(refusal),
        None => not_number(store, c, var),
    }
}

/// The first variable of these that the clause doesn't have or that stands for any value.
pub(crate) fn variables_broken(store: &Store, c: &Clause, pairs: &[(u32, i64)]) -> Option<Refusal>
    ensures { result ≡ spec.variables_broken (clause_in store.now c.now) pairs.now }
{
    for pair in pairs {
        if let Some(refusal) = no_number(store, c, pair.0) {
            return Some(refusal);
        }
    }
    None
}
