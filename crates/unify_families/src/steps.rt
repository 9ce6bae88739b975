//! The steps that families are made of.

ghost use Rattle.std.specs.Prelude.{◌≡◌, ◌<◌, ◌≤◌, ◌+◌, length, IfOk, OnOk};
ghost use Rattle.term_store.specs.Trees.{AreIn, Keeps};
ghost use Rattle.unify_families.specs.Held.{AreHeld};

use crate::equations::Equations;
use std::alloc::Global;
use term_store::{Term, TermFault};

/// X_v = X_w.
#[tactic(auto, using(term_store::proofs::Keeping::keeps_within))]
pub(crate) fn equal(es: &mut Equations, v: u32, w: u32) -> Result<(), TermFault>
    requires { AreHeld es.old }
    ensures { OnOk result (AreHeld es.new) }
{
    let left = es.variable(v)?;
    let right = es.variable(w)?;
    Ok(es.equate(left, right)?)
}

/// X_v = f(X_w, X_w).
#[tactic(auto, using(term_store::proofs::Keeping::keeps_within))]
pub(crate) fn double(es: &mut Equations, v: u32, w: u32) -> Result<(), TermFault>
    requires { AreHeld es.old }
    ensures { OnOk result (AreHeld es.new) }
{
    let left = es.variable(v)?;
    let x = es.variable(w)?;
    let right = es.application("f", &[x, x])?;
    Ok(es.equate(left, right)?)
}

/// X_v = g(X_w).
#[tactic(auto, using(term_store::proofs::Keeping::keeps_within))]
pub(crate) fn inside(es: &mut Equations, v: u32, w: u32) -> Result<(), TermFault>
    requires { AreHeld es.old }
    ensures { OnOk result (AreHeld es.new) }
{
    let left = es.variable(v)?;
    let x = es.variable(w)?;
    let right = es.application("g", &[x])?;
    Ok(es.equate(left, right)?)
}

/// X_v is a constant.
#[tactic(auto, using(term_store::proofs::Keeping::keeps_within))]
pub(crate) fn constant(es: &mut Equations, v: u32, name: &str) -> Result<(), TermFault>
    requires { AreHeld es.old }
    ensures { OnOk result (AreHeld es.new) }
{
    let left = es.variable(v)?;
    let right = es.application(name, &[])?;
    Ok(es.equate(left, right)?)
}

/// For each variable of the chain but the first: it is `f` of the one before it, twice.
pub(crate) fn chain(es: &mut Equations, first: u32, length: u32) -> Result<(), TermFault>
    requires held { AreHeld es.old }
    requires few { first + length ≤ 4000000 }
    ensures { OnOk result (AreHeld es.new) }
{
    for v in first..first + length {
        double(es, v + 1, v)?;
    }
    Ok(())
}

/// A term of depth 256 with one variable.
#[tactic(auto, using(term_store::proofs::Keeping::keeps_trans, term_store::proofs::Keeping::keeps_refl))]
pub(crate) fn deep(es: &mut Equations, v: u32) -> Result<Term, TermFault>
    requires held { AreHeld es.old }
    ensures held { OnOk result (AreHeld es.new) }
    ensures keeps { Keeps es.old.store es.new.store }
    ensures within { IfOk result (λ t. t < length es.new.store) }
{
    let mut t = es.variable(v)?;
    for _ in 0..255 {
        t = es.application("g", &[t])?;
    }
    Ok(t)
}

/// A term of size 4,096, whose arguments are constants that are stored one by one.
#[tactic(auto, using(term_store::proofs::Keeping::keeps_trans, term_store::proofs::Keeping::keeps_refl, term_store::proofs::Keeping::keeps_in, term_store::proofs::Keeping::are_in_push))]
pub(crate) fn wide(alloc: Global, es: &mut Equations) -> Result<Term, TermFault>
    requires held { AreHeld es.old }
    ensures held { OnOk result (AreHeld es.new) }
    ensures keeps { Keeps es.old.store es.new.store }
    ensures within { IfOk result (λ t. t < length es.new.store) }
{
    let mut args = Vec::new(alloc);
    for _ in 0..4095 {
        let c = es.application("c", &[])?;
        args.push(c)?;
    }
    es.application("h", args.as_slice())
}
