//! Atoms that may unify.

ghost use Rattle.std.specs.Prelude.{◌≡◌, ◌<◌, ◌↔◌, IsTrue, length};
ghost use Rattle.clp_model.specs.Trees.{IsApplication};
ghost use Rattle.clp_model.specs.Predicates.{predicate_of};
ghost use Rattle.term_store.specs.Trees.{tree_at};
ghost use Rattle.clause_resolvent.specs.Atoms.{predicate};

use term_store::{Look, Store, Term};

/// Whether the term is an application of this name to so many arguments.
#[tactic(auto, using(clp_model::proofs::Trees::name_of_app, clp_model::proofs::Trees::arguments_of_app))]
fn has_predicate(store: &Store, t: Term, name: &str, count: usize) -> bool
    requires { t < length store.now }
    ensures { IsTrue result ↔ (IsApplication (tree_at store.now t) × (predicate_of (tree_at store.now t) ≡ predicate name.now count)) }
{
    match store.look(t) {
        Look::Var(_, _) => false,
        Look::App(other, args) => args.len() == count && other == name,
    }
}

/// Whether two atoms have the same name and as many arguments. It takes no memory.
pub(crate) fn have_same_predicate(store: &Store, a: Term, b: Term) -> bool
    requires left { a < length store.now }
    requires right { b < length store.now }
    requires left_atom { IsApplication (tree_at store.now a) }
    requires right_atom { IsApplication (tree_at store.now b) }
    ensures { IsTrue result ↔ (predicate_of (tree_at store.now a) ≡ predicate_of (tree_at store.now b)) }
{
    match store.look(a) {
        Look::Var(_, _) => unreachable!(),
        Look::App(name, args) => has_predicate(store, b, name, args.len()),
    }
}
