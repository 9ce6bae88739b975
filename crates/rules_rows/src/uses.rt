//! Whether a variable is in a term.

ghost use Rattle.std.specs.Prelude.{◌≡◌, ◌<◌, nat_eq, length};
ghost use Rattle.std.specs.List.{list_any};
ghost use Rattle.clp_model.specs.Trees.{variables, variables_in};
ghost use Rattle.term_store.specs.Trees.{AreIn};
ghost use Rattle.clause_store.specs.Stored.{atom_at, atoms_at};

use term_store::{Look, Store, Term};

/// Whether the variable is in the term.
#[cycle(uses)]
#[tactic(auto, using(clause_store::proofs::Numbers::numbers_app, clause_store::proofs::Numbers::numbers_var, clp_model::proofs::Trees::size_app))]
pub(crate) fn uses(store: &Store, t: Term, var: u32) -> bool
    requires { t < length store.now }
    ensures { result ≡ list_any (nat_eq var) (variables (atom_at store.now t)) }
{
    match store.look(t) {
        Look::Var(number, _) => var == number,
        Look::App(_, args) => any_uses(store, args, var),
    }
}

/// Whether it is in one of the terms.
#[cycle(uses)]
#[tactic(auto, using(clp_model::proofs::Trees::size_positive))]
pub(crate) fn any_uses(store: &Store, terms: &[Term], var: u32) -> bool
    requires { AreIn store.now terms.now }
    ensures { result ≡ list_any (nat_eq var) (variables_in (atoms_at store.now terms.now)) }
{
    for term in terms {
        if uses(store, *term, var) {
            return true;
        }
    }
    false
}
