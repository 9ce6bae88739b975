//! The predicate of a stored atom.

ghost use Rattle.std.specs.Prelude.{◌≡◌, ◌<◌, IfOk, length};
ghost use Rattle.clp_model.specs.Predicates.{predicate_of};
ghost use Rattle.clause_store.specs.Stored.{atom_at};

use clp_model::{Name, Pred};
use std::alloc::Global;
use term_store::{Look, NoMemory, Store, Term};

/// The predicate of an atom; a variable counts as an atom without a name.
#[tactic(auto, using(crate::proofs::Atoms::of_app, crate::proofs::Atoms::of_var))]
pub(crate) fn pred_of(alloc: Global, store: &Store, atom: Term) -> Result<Pred, NoMemory>
    requires { atom < length store.now }
    ensures { IfOk result (λ p. p ≡ predicate_of (atom_at store.now atom)) }
{
    match store.look(atom) {
        Look::App(name, args) => Ok(Pred {
            name: Name::copy_of(alloc, name)?,
            arity: args.len() as u32,
        }),
        Look::Var(_, _) => Ok(Pred {
            name: Name::copy_of(alloc, "")?,
            arity: 0,
        }),
    }
}
