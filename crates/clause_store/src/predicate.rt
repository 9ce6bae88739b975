//! The predicate of an atom.

ghost use Rattle.std.specs.Prelude.{◌≡◌, ◌<◌, ◌↔◌, IsTrue, length};
ghost use Rattle.clp_model.specs.Trees.{IsApplication};
ghost use Rattle.clp_model.specs.Predicates.{predicate_of};
ghost use Rattle.term_store.specs.Trees.{tree_at};

use clp_model::Pred;
use term_store::{Look, Store, Term};

/// Whether the term is an application of this predicate. It takes no memory.
#[tactic(auto, using(clp_model::proofs::Trees::name_of_app, clp_model::proofs::Trees::arguments_of_app))]
pub fn pred_is(store: &Store, t: Term, p: &Pred) -> bool
    requires { t < length store.now }
    ensures { IsTrue result ↔ (IsApplication (tree_at store.now t) × (predicate_of (tree_at store.now t) ≡ p.now)) }
{
    match store.look(t) {
        Look::Var(_, _) => false,
        Look::App(name, args) => args.len() == p.arity as usize && name == p.name.as_str(),
    }
}
