//! Terms as they stand in tables.

ghost use Rattle.std.specs.Prelude.{◌≡◌, ◌<◌, length, IfOk, OnOk};
ghost use Rattle.term_store.specs.Trees.{AreIn, Keeps};
ghost use Rattle.unify.specs.Pairs.{PairsIn};

use clp_model::Sort;
use std::alloc::Global;
use term_store::{Store, Term, TermFault};

/// A term: a variable of a sort with its number, or a name applied to terms.
pub enum Shape {
    Any(u32),
    Num(u32),
    App(&'static str, &'static [Shape]),
}

/// The term of a store.
#[cycle(put)]
#[tactic(auto, using(term_store::proofs::Keeping::keeps_trans))]
pub fn put(alloc: Global, store: &mut Store, shape: &Shape) -> Result<Term, TermFault>
    ensures keeps { Keeps store.old store.new }
    ensures within { IfOk result (λ t. t < length store.new) }
{
    match shape {
        Shape::Any(number) => Ok(store.var(*number, Sort::Any)?),
        Shape::Num(number) => Ok(store.var(*number, Sort::Num)?),
        Shape::App(name, args) => {
            let args = match put_all(alloc, store, args) {
                Ok(args) => args,
                Err(e) => return Err(e),
            };
            store.app(name, args.as_slice())
        }
    }
}

#[cycle(put)]
#[tactic(auto, using(term_store::proofs::Keeping::keeps_refl, term_store::proofs::Keeping::keeps_trans, term_store::proofs::Keeping::keeps_in, term_store::proofs::Keeping::are_in_push))]
fn put_all(alloc: Global, store: &mut Store, shapes: &[Shape]) -> Result<Vec<Term>, TermFault>
    ensures keeps { Keeps store.old store.new }
    ensures within { IfOk result (λ ts. AreIn store.new ts.items) }
{
    let mut terms = Vec::new(alloc);
    for shape in shapes {
        let t = match put(alloc, store, shape) {
            Ok(t) => t,
            Err(e) => return Err(e),
        };
        terms.push(t)?;
    }
    Ok(terms)
}

/// Pairs of terms of a store.
#[tactic(auto, using(term_store::proofs::Keeping::keeps_within, unify_families::proofs::Holding::pairs_kept, unify_families::proofs::Holding::pairs_push))]
pub fn put_pairs(
    alloc: Global,
    store: &mut Store,
    shapes: &[(Shape, Shape)],
) -> Result<Vec<(Term, Term)>, TermFault>
    ensures { IfOk result (λ ps. PairsIn store.new ps.items) }
{
    let mut pairs = Vec::new(alloc);
    for (left, right) in shapes {
        let a = put(alloc, store, left)?;
        let b = put(alloc, store, right)?;
        pairs.push((a, b))?;
    }
    Ok(pairs)
}

/// The left and the right terms of pairs.
#[tactic(auto, using(term_store::proofs::Keeping::keeps_within, term_store::proofs::Keeping::keeps_in, term_store::proofs::Keeping::are_in_push))]
pub fn put_sides(
    alloc: Global,
    store: &mut Store,
    shapes: &[(Shape, Shape)],
) -> Result<(Vec<Term>, Vec<Term>), TermFault>
    ensures left { IfOk result (λ sides. AreIn store.new sides.0.items) }
    ensures right { IfOk result (λ sides. AreIn store.new sides.1.items) }
{
    let mut lefts = Vec::new(alloc);
    let mut rights = Vec::new(alloc);
    for (left, right) in shapes {
        let a = put(alloc, store, left)?;
        lefts.push(a)?;
        let b = put(alloc, store, right)?;
        rights.push(b)?;
    }
    Ok((lefts, rights))
}
