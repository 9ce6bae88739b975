//! Equations between terms of one store.

ghost use Rattle.std.specs.Prelude.{◌≡◌, ◌<◌, ◌++◌, ◌∷◌, [], length, IfOk, OnOk};
ghost use Rattle.term_store.specs.Trees.{AreIn, Keeps};
ghost use Rattle.unify_families.specs.Held.{AreHeld};

use clp_model::Sort;
use std::alloc::Global;
use term_store::{NoMemory, Store, Term, TermFault};

/// A store, and the pairs of its terms that are to be equal.
#[derive(Drop)]
pub struct Equations {
    pub store: Store,
    pub pairs: Vec<(Term, Term)>,
}

impl Equations {
    /// No equations.
    pub fn new(alloc: Global) -> Equations
        ensures { AreHeld result }
    {
        Equations {
            store: Store::new(alloc),
            pairs: Vec::new(alloc),
        }
    }

    /// The Any variable of a number.
    #[tactic(auto, using(crate::proofs::Holding::pairs_kept))]
    pub(crate) fn variable(&mut self, number: u32) -> Result<Term, TermFault>
        requires { AreHeld self.old }
        ensures held { AreHeld self.new }
        ensures keeps { Keeps self.old.store self.new.store }
        ensures within { IfOk result (λ t. t < length self.new.store) }
    {
        Ok(self.store.var(number, Sort::Any)?)
    }

    /// A name applied to terms.
    #[tactic(auto, using(crate::proofs::Holding::pairs_kept))]
    pub(crate) fn application(&mut self, name: &str, args: &[Term]) -> Result<Term, TermFault>
        requires held { AreHeld self.old }
        requires args { AreIn self.old.store args.now }
        ensures held { AreHeld self.new }
        ensures keeps { Keeps self.old.store self.new.store }
        ensures within { IfOk result (λ t. t < length self.new.store) }
    {
        self.store.app(name, args)
    }

    /// One more equation.
    #[tactic(auto, using(crate::proofs::Holding::pairs_push))]
    pub(crate) fn equate(&mut self, a: Term, b: Term) -> Result<(), NoMemory>
        requires held { AreHeld self.old }
        requires left { a < length self.old.store }
        requires right { b < length self.old.store }
        ensures held { OnOk result (AreHeld self.new) }
        ensures store { self.new.store ≡ self.old.store }
    {
        self.pairs.push((a, b))?;
        Ok(())
    }
}
