//! What matching finds, and what applying it gives. The expected answers were worked out by hand.

ghost use Rattle.std.specs.Prelude.{◌≡◌, ◌<◌, length};
ghost use Rattle.term_store.specs.Trees.{AreIn};
ghost use Rattle.substitution.specs.Weights.{IsOf};

use crate::board::{Make, at, chosen, laid_out};
use std::alloc::Global;
use substitution::{Subst, apply, matching};
use term_store::{Store, Term, TermFault};

/// What a case comes to. A number stands for the term that was made at this place.
#[derive(Clone, Copy, PartialEq, Eq)]
enum Outcome {
    NoMatch,
    TooLarge,
    Gives(usize),
}

/// Patterns, targets, the term in which the images are put, and what this comes to.
type Case = (&'static [usize], &'static [usize], usize, Outcome);

#[tactic(auto, using(term_store::proofs::Keeping::keeps_in))]
fn applied(
    store: &mut Store,
    terms: &[Term],
    s: &Subst,
    probe: Term,
    outcome: Outcome,
) -> Result<bool, TermFault>
    requires terms { AreIn store.old terms.now }
    requires of { IsOf store.old s.now }
    requires probe { probe < length store.old }
{
    match apply(store, s, probe) {
        Err(TermFault::TooLarge) => Ok(outcome == Outcome::TooLarge),
        Err(e) => Err(e),
        Ok(t) => match outcome {
            Outcome::Gives(place) => {
                let expected = at(store, terms, place)?;
                Ok(store.same(t, expected))
            }
            _ => Ok(false),
        },
    }
}

/// Whether a case comes to its outcome.
fn holds(alloc: Global, makes: &[Make], case: &Case) -> Result<bool, TermFault> {
    let (patterns, targets, probe, outcome) = *case;
    let made = laid_out(alloc, makes)?;
    let mut store = made.store;
    let terms = made.terms;
    let patterns = chosen(alloc, &store, terms.as_slice(), patterns)?;
    let targets = chosen(alloc, &store, terms.as_slice(), targets)?;
    let probe = at(&store, terms.as_slice(), probe)?;
    match matching(alloc, &store, patterns.as_slice(), targets.as_slice())? {
        None => Ok(outcome == Outcome::NoMatch),
        Some(s) => applied(&mut store, terms.as_slice(), &s, probe, outcome),
    }
}

/// Whether all cases come to their outcomes.
fn all_hold(alloc: Global, makes: &[Make], cases: &[Case]) -> bool {
    for case in cases {
        if !matches!(holds(alloc, makes, case), Ok(true)) {
            return false;
        }
    }
    true
}

/// X is V1, Y is V2; N and M are the Num variables V1 and V2.
static SMALL: [Make; 26] = [
    Make::Any(1),
    Make::Any(2),
    Make::App("a", &[]),
    Make::App("b", &[]),
    Make::App("p", &[0, 1]), // 4: p(X, Y)
    Make::App("p", &[1, 2]), // p(Y, a)
    Make::App("p", &[0, 0]), // 6: p(X, X)
    Make::App("p", &[2, 2]), // p(a, a)
    Make::App("p", &[2, 3]), // 8: p(a, b)
    Make::Num(1), // 9: N
    Make::Num(2), // 10: M
    Make::App("f", &[9]), // 11: f(N)
    Make::App("f", &[10]), // f(M)
    Make::App("f", &[2]), // 13: f(a)
    Make::App("f", &[1]), // f(Y)
    Make::App("f", &[0]), // 15: f(X)
    Make::App("q", &[0, 1]), // q(X, Y)
    Make::App("q", &[1, 2]), // 17: q(Y, a)
    Make::App("p", &[14, 14]), // p(f(Y), f(Y))
    Make::App("f", &[]), // 19: f
    Make::App("f", &[0, 1]), // f(X, Y)
    Make::App("f", &[14]), // 21: f(f(Y))
    Make::App("p", &[2, 1]), // p(a, Y)
    Make::App("f", &[15]), // 23: f(f(X))
    Make::App("g", &[0]), // g(X)
    Make::App("p", &[15, 1]), // 25: p(f(X), Y)
];

#[test]
fn what_is_found_is_put_in_at_once(rt: HostRuntime) {
    let cases: [Case; 10] = [
        (&[4], &[5], 16, Outcome::Gives(17)),
        (&[6], &[7], 0, Outcome::Gives(2)),
        (&[11], &[12], 9, Outcome::Gives(10)),
        (&[15], &[11], 0, Outcome::Gives(9)),
        (&[6], &[18], 15, Outcome::Gives(21)),
        (&[0, 1], &[2, 3], 4, Outcome::Gives(8)),
        (&[0], &[2], 4, Outcome::Gives(22)),
        (&[0], &[15], 15, Outcome::Gives(23)),
        (&[0], &[2], 9, Outcome::Gives(9)),
        (&[], &[], 4, Outcome::Gives(4)),
    ];
    let hold = all_hold(rt.alloc(), &SMALL, &cases);
    assert!(rt; hold);
}

#[test]
fn what_does_not_match(rt: HostRuntime) {
    let cases: [Case; 10] = [
        (&[6], &[8], 0, Outcome::NoMatch),
        (&[11], &[13], 0, Outcome::NoMatch),
        (&[11], &[14], 0, Outcome::NoMatch),
        (&[15], &[24], 0, Outcome::NoMatch),
        (&[15], &[19], 0, Outcome::NoMatch),
        (&[15], &[20], 0, Outcome::NoMatch),
        (&[2], &[0], 0, Outcome::NoMatch),
        (&[0, 0], &[2, 3], 0, Outcome::NoMatch),
        (&[0], &[2, 3], 0, Outcome::NoMatch),
        (&[6], &[25], 0, Outcome::NoMatch),
    ];
    let hold = all_hold(rt.alloc(), &SMALL, &cases);
    assert!(rt; hold);
}

/// At place n from 1 to 11 a term of size 2^n - 1.
static WIDE: [Make; 17] = [
    Make::Any(1),
    Make::App("c", &[]),
    Make::App("f", &[1, 1]),
    Make::App("f", &[2, 2]),
    Make::App("f", &[3, 3]),
    Make::App("f", &[4, 4]),
    Make::App("f", &[5, 5]),
    Make::App("f", &[6, 6]),
    Make::App("f", &[7, 7]),
    Make::App("f", &[8, 8]),
    Make::App("f", &[9, 9]),
    Make::App("f", &[10, 10]),
    Make::App("f", &[0, 0]),
    Make::App("g", &[12]), // 13: g(f(X, X))
    Make::App("g", &[13]), // 14: g(g(f(X, X)))
    Make::App("f", &[11, 11]),
    Make::App("g", &[15]), // 16: size 4,096
];

/// With a term of depth 128 for X, the terms at 3 and 4 have depths 256 and 257.
static DEEP: [Make; 6] = [
    Make::Any(1),
    Make::App("c", &[]),
    Make::Nest(127, 1),
    Make::Nest(128, 0),
    Make::Nest(129, 0),
    Make::Nest(128, 2),
];

#[test]
fn the_limits_are_the_limits_of_terms(rt: HostRuntime) {
    let wide: [Case; 2] = [
        (&[0], &[11], 13, Outcome::Gives(16)),
        (&[0], &[11], 14, Outcome::TooLarge),
    ];
    let deep: [Case; 2] = [
        (&[0], &[2], 3, Outcome::Gives(5)),
        (&[0], &[2], 4, Outcome::TooLarge),
    ];
    let wide_hold = all_hold(rt.alloc(), &WIDE, &wide);
    assert!(rt; wide_hold);
    let deep_hold = all_hold(rt.alloc(), &DEEP, &deep);
    assert!(rt; deep_hold);
}
