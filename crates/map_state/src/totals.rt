//! How many clauses there are, and their sizes together.

ghost use Rattle.std.specs.Prelude.{◌≡◌, ◌*◌, ◌≤◌, length};
ghost use Rattle.clause_model.specs.Load.{sizes_of};
ghost use Rattle.clause_loader.specs.Loaded.{clauses_in, AreStored};
ghost use Rattle.map_state.specs.Changes.{AllMade};
ghost use Rattle.map_state.specs.Rows.{count_of, nodes_of_made};

use crate::change::Made;
use clause_store::{Clause, clause_size};
use term_store::Store;

/// How many places hold a clause.
pub(crate) fn present_count(clauses: &[Option<Clause>]) -> u32
    requires { length clauses.now ≤ 4096 }
    ensures value { result ≡ count_of clauses.now }
    ensures few { result ≤ 4096 }
{
    let mut count = 0;
    for clause in clauses {
        if clause.is_some() {
            count += 1;
        }
    }
    count
}

/// The sizes of the clauses together.
pub(crate) fn total_size(store: &Store, clauses: &[Option<Clause>]) -> u32
    requires stored { AreStored store.now clauses.now }
    requires few { length clauses.now ≤ 4096 }
    ensures { result ≡ sizes_of (clauses_in store.now clauses.now) }
{
    let mut total = 0;
    for clause in clauses {
        if let Some(clause) = clause {
            total += clause_size(store, clause);
        }
    }
    total
}

/// The sizes of the clauses that a change makes, together.
pub(crate) fn made_nodes(store: &Store, made: &[Made]) -> u32
    requires stored { AllMade store.now made.now }
    requires few { length made.now ≤ 4096 }
    ensures value { result ≡ nodes_of_made store.now made.now }
    ensures few { result ≤ 4096 * 4096 }
{
    let mut total = 0;
    for one in made {
        total += clause_size(store, &one.clause);
    }
    total
}
