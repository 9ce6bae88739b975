//! Terms that are made one after another from data.

ghost use Rattle.std.specs.Prelude.{◌≡◌, ◌<◌, length, IfOk, OnOk};
ghost use Rattle.term_store.specs.Trees.{AreIn, Keeps};

use clp_model::Sort;
use std::alloc::Global;
use term_store::{Store, Term, TermFault};

/// How a term is made. A number stands for the term that was made at this place.
pub enum Make {
    Any(u32),
    Num(u32),
    App(&'static str, &'static [usize]),
    /// `s` so many times round a term.
    Nest(u32, usize),
}

/// A store, and the terms that were made in it.
#[derive(Drop)]
pub struct Board {
    pub store: Store,
    pub terms: Vec<Term>,
}

/// The term at a place. A place that isn't there is answered as want of memory, which fails the test.
#[tactic(auto, using(substitution::proofs::Weighed::item_in))]
pub fn at(store: &Store, terms: &[Term], place: usize) -> Result<Term, TermFault>
    requires { AreIn store.now terms.now }
    ensures { IfOk result (λ t. t < length store.now) }
{
    if place >= terms.len() {
        return Err(TermFault::NoMemory);
    }
    Ok(terms[place])
}

/// The terms at places.
#[tactic(auto, using(term_store::proofs::Keeping::are_in_push))]
pub fn chosen(
    alloc: Global,
    store: &Store,
    terms: &[Term],
    places: &[usize],
) -> Result<Vec<Term>, TermFault>
    requires { AreIn store.now terms.now }
    ensures { IfOk result (λ ts. AreIn store.now ts.items) }
{
    let mut all = Vec::new(alloc);
    for place in places {
        let t = at(store, terms, *place)?;
        all.push(t)?;
    }
    Ok(all)
}

#[tactic(auto, using(term_store::proofs::Keeping::keeps_trans, term_store::proofs::Keeping::keeps_refl))]
fn nested(store: &mut Store, times: u32, t: Term) -> Result<Term, TermFault>
    requires { t < length store.old }
    ensures keeps { Keeps store.old store.new }
    ensures within { IfOk result (λ t. t < length store.new) }
{
    let mut t = t;
    for _ in 0..times {
        t = store.app("s", &[t])?;
    }
    Ok(t)
}

#[tactic(auto, using(term_store::proofs::Keeping::keeps_refl))]
fn made(alloc: Global, store: &mut Store, terms: &[Term], make: &Make) -> Result<Term, TermFault>
    requires { AreIn store.old terms.now }
    ensures keeps { Keeps store.old store.new }
    ensures within { IfOk result (λ t. t < length store.new) }
{
    match make {
        Make::Any(number) => Ok(store.var(*number, Sort::Any)?),
        Make::Num(number) => Ok(store.var(*number, Sort::Num)?),
        Make::App(name, places) => {
            let args = chosen(alloc, store, terms, places)?;
            store.app(name, args.as_slice())
        }
        Make::Nest(times, place) => {
            let t = at(store, terms, *place)?;
            nested(store, *times, t)
        }
    }
}

#[tactic(auto, using(term_store::proofs::Keeping::keeps_in, term_store::proofs::Keeping::are_in_push))]
pub fn laid_out(alloc: Global, makes: &[Make]) -> Result<Board, TermFault>
    ensures { IfOk result (λ b. AreIn b.store b.terms.items) }
{
    let mut store = Store::new(alloc);
    let mut terms = Vec::new(alloc);
    for make in makes {
        let t = made(alloc, &mut store, terms.as_slice(), make)?;
        terms.push(t)?;
    }
    Ok(Board { store, terms })
}
