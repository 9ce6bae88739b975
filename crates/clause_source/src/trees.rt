//! The trees of terms, with their variables numbered by place in a list.

ghost use Rattle.std.specs.Prelude.{◌≡◌, ◌<◌, ◌≤◌, length, IfOk};
ghost use Rattle.clp_model.specs.Trees.{mapped, mapped_all};
ghost use Rattle.clp_model.specs.Canonical.{place_in};
ghost use Rattle.term_store.specs.Trees.{AreIn};
ghost use Rattle.clause_store.specs.Stored.{atom_at, atoms_at};

use clause_store::Tree;
use clp_model::Name;
use sqlite_items::Items;
use std::alloc::Global;
use term_store::{Look, NoMemory, Store, Term};

/// The place of a number, from 1.
#[tactic(auto, using(clause_store::proofs::Places::place_step, clause_store::proofs::Places::place_end))]
fn place_in(met: &[u32], number: u32) -> u32
    requires { length met.now ≤ 256 }
    ensures { result ≡ place_in met.now number }
{
    let mut place = 1;
    for m in met {
        if *m == number {
            return place;
        }
        place += 1;
    }
    place
}

/// The tree of a term, in which each variable is its place in `met`.
#[cycle(tree_of)]
#[tactic(auto, using(crate::proofs::Numbered::numbered_app, crate::proofs::Numbered::numbered_var, clp_model::proofs::Trees::size_app))]
pub(crate) fn tree_of(alloc: Global, store: &Store, t: Term, met: &[u32]) -> Result<Tree, NoMemory>
    requires within { t < length store.now }
    requires few { length met.now ≤ 256 }
    ensures { IfOk result (λ tree. tree ≡ mapped (place_in met.now) (atom_at store.now t)) }
{
    match store.look(t) {
        Look::Var(number, _) => Ok(Tree::Var(place_in(met, number))),
        Look::App(name, args) => {
            let name = Name::copy_of(alloc, name)?;
            Ok(Tree::App(name, trees_of(alloc, store, args, met)?))
        }
    }
}

/// The same of several terms, in order.
#[cycle(tree_of)]
#[tactic(auto, using(clp_model::proofs::Trees::size_positive))]
pub(crate) fn trees_of(
    alloc: Global,
    store: &Store,
    terms: &[Term],
    met: &[u32],
) -> Result<Items<Tree>, NoMemory>
    requires within { AreIn store.now terms.now }
    requires few { length met.now ≤ 256 }
    ensures { IfOk result (λ trees. trees ≡ mapped_all (place_in met.now) (atoms_at store.now terms.now)) }
{
    let mut trees = Items::new(alloc);
    for term in terms {
        trees.push(tree_of(alloc, store, *term, met)?)?;
    }
    Ok(trees)
}
