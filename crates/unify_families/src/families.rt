//! The families.

ghost use Rattle.std.specs.Prelude.{◌≡◌, ◌<◌, ◌≤◌, length, IfOk, OnOk};
ghost use Rattle.term_store.specs.Trees.{AreIn, Keeps};
ghost use Rattle.unify_families.specs.Held.{AreHeld};

use crate::equations::Equations;
use crate::steps::{chain, constant, deep, equal, inside, wide};
use std::alloc::Global;
use term_store::{Term, TermFault};

/// How equations are made.
#[derive(Clone, Copy)]
pub enum Family {
    /// X1 = f(X0, X0), X2 = f(X1, X1) and so on: the last image has exponentially many nodes.
    Chain,
    /// Two chains whose ends are equal.
    Chains,
    /// Two such chains whose first variables are different constants, so that the last equation can't hold.
    ClashingChains,
    /// Two such chains, where the first variable of one is `g` of that of the other: a cycle once their ends are equal.
    CyclicChains,
    /// X0 = X1, X1 = X2 and so on.
    Row,
    /// Equal terms of size 4,096, each with each.
    EqualTerms,
    /// Terms of depth 256 on both sides, with different variables inside.
    Deep,
    /// One variable and the same term, again and again.
    Again,
}

/// Two chains whose ends are equal.
fn chains(es: &mut Equations, length: u32) -> Result<(), TermFault>
    requires held { AreHeld es.old }
    requires few { length ≤ 1000000 }
    ensures { OnOk result (AreHeld es.new) }
{
    chain(es, 0, length)?;
    chain(es, length + 1, length)?;
    equal(es, length, 2 * length + 1)
}

fn row(es: &mut Equations, length: u32) -> Result<(), TermFault>
    requires held { AreHeld es.old }
    requires few { length ≤ 1000000 }
    ensures { OnOk result (AreHeld es.new) }
{
    for v in 0..length {
        equal(es, v, v + 1)?;
    }
    Ok(())
}

#[tactic(auto, using(term_store::proofs::Keeping::keeps_in, term_store::proofs::Keeping::are_in_push))]
fn wide_terms(alloc: Global, es: &mut Equations, count: u32) -> Result<Vec<Term>, TermFault>
    requires held { AreHeld es.old }
    ensures held { OnOk result (AreHeld es.new) }
    ensures within { IfOk result (λ ts. AreIn es.new.store ts.items) }
{
    let mut terms = Vec::new(alloc);
    for _ in 0..count {
        let t = wide(alloc, es)?;
        terms.push(t)?;
    }
    Ok(terms)
}

/// One term with each of several.
#[tactic(auto, using(crate::proofs::Holding::term_at))]
fn equate_all(es: &mut Equations, a: Term, terms: &[Term]) -> Result<(), TermFault>
    requires held { AreHeld es.old }
    requires left { a < length es.old.store }
    requires right { AreIn es.old.store terms.now }
    ensures held { OnOk result (AreHeld es.new) }
    ensures store { es.new.store ≡ es.old.store }
{
    for b in terms {
        es.equate(a, *b)?;
    }
    Ok(())
}

/// Each of several terms with each.
#[tactic(auto, using(crate::proofs::Holding::term_at))]
fn equate_each(es: &mut Equations, terms: &[Term]) -> Result<(), TermFault>
    requires held { AreHeld es.old }
    requires within { AreIn es.old.store terms.now }
    ensures { OnOk result (AreHeld es.new) }
{
    for a in terms {
        equate_all(es, *a, terms)?;
    }
    Ok(())
}

fn equal_terms(alloc: Global, es: &mut Equations, count: u32) -> Result<(), TermFault>
    requires { AreHeld es.old }
    ensures { OnOk result (AreHeld es.new) }
{
    let terms = wide_terms(alloc, es, count)?;
    equate_each(es, terms.as_slice())
}

#[tactic(auto, using(term_store::proofs::Keeping::keeps_within))]
fn deep_pairs(es: &mut Equations, count: u32) -> Result<(), TermFault>
    requires held { AreHeld es.old }
    requires few { count ≤ 1000000 }
    ensures { OnOk result (AreHeld es.new) }
{
    for v in 0..count {
        let a = deep(es, v)?;
        let b = deep(es, count + v)?;
        es.equate(a, b)?;
    }
    Ok(())
}

#[tactic(auto, using(term_store::proofs::Keeping::keeps_within))]
fn again(es: &mut Equations, count: u32) -> Result<(), TermFault>
    requires held { AreHeld es.old }
    ensures { OnOk result (AreHeld es.new) }
{
    let x = es.variable(0)?;
    let t = deep(es, 1)?;
    for _ in 0..count {
        es.equate(x, t)?;
    }
    Ok(())
}

impl Family {
    /// The equations of this family and size: that of a chain or row is its number of equations, that of the others how
    /// many terms or pairs there are. That the terms are of the store is proved; which they are is tested alone.
    pub fn equations(self, alloc: Global, size: u32) -> Result<Equations, TermFault>
        requires { size ≤ 1000000 }
        ensures { IfOk result (λ es. AreHeld es) }
    {
        let mut es = Equations::new(alloc);
        self.push(alloc, &mut es, size)?;
        Ok(es)
    }

    fn push(self, alloc: Global, es: &mut Equations, size: u32) -> Result<(), TermFault>
        requires held { AreHeld es.old }
        requires few { size ≤ 1000000 }
        ensures { OnOk result (AreHeld es.new) }
    {
        match self {
            Family::Chain => chain(es, 0, size),
            Family::Chains => chains(es, size),
            Family::ClashingChains => {
                constant(es, 0, "a")?;
                constant(es, size + 1, "b")?;
                chains(es, size)
            }
            Family::CyclicChains => {
                inside(es, 0, size + 1)?;
                chains(es, size)
            }
            Family::Row => row(es, size),
            Family::EqualTerms => equal_terms(alloc, es, size),
            Family::Deep => deep_pairs(es, size),
            Family::Again => again(es, size),
        }
    }
}
