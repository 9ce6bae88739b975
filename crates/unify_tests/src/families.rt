//! Equations that are hard for a textbook's algorithm, at the sizes that a clause's limits allow.

ghost use Rattle.std.specs.Prelude.{◌≤◌};
ghost use Rattle.unify_families.specs.Held.{AreHeld};

use clp_model::Sort;
use std::alloc::Global;
use std::cmp::max;
use std::test::Fail;
use term_store::TermFault;
use unify::{apply, unify};
use unify_families::{Equations, Family};

/// A family, its size, whether its equations can hold, how many they are, and the greatest size and depth of a term.
type Case = (Family, u32, bool, usize, u32, u32);

static CASES: [Case; 8] = [
    (Family::Chain, 250, true, 250, 3, 2),
    (Family::Chains, 124, true, 249, 3, 2),
    (Family::ClashingChains, 124, false, 251, 3, 2),
    (Family::CyclicChains, 124, false, 250, 3, 2),
    (Family::Row, 40_000, true, 40_000, 1, 1),
    (Family::EqualTerms, 64, true, 4096, 4096, 2),
    (Family::Deep, 1, true, 1, 256, 256),
    (Family::Again, 4096, true, 4096, 256, 256),
];

/// How many equations there are, and the greatest size and depth of a right side.
#[tactic(auto, using(unify::proofs::Entered::pair_in))]
fn extent(es: &Equations) -> (usize, u32, u32)
    requires { AreHeld es.now }
{
    let mut size = 0;
    let mut depth = 0;
    for (_, right) in es.pairs.as_slice() {
        size = max(size, es.store.size(*right));
        depth = max(depth, es.store.depth(*right));
    }
    (es.pairs.len(), size, depth)
}

/// Whether a case is as it should be.
fn holds(alloc: Global, case: &Case) -> Result<bool, TermFault> {
    let (family, size, solved, pairs, nodes, levels) = *case;
    if size > 1_000_000 {
        return Ok(false);
    }
    let es = family.equations(alloc, size)?;
    let found = unify(alloc, &es.store, es.pairs.as_slice())?;
    Ok(found.is_some() == solved && extent(&es) == (pairs, nodes, levels))
}

#[test]
fn families(rt: HostRuntime) -> Result<(), Fail> {
    for (number, case) in CASES.iter().enumerate() {
        assert!(rt; holds(rt.alloc(), case)?, "family {number}");
    }
    Ok(())
}

/// The last variable of a chain, after the unifier of the chain: the size that is found, or none where it is too large.
#[tactic(auto, using(term_store::proofs::Keeping::keeps_within, substitution::proofs::Kept::is_of_kept))]
fn last_of_chain(alloc: Global, length: u32) -> Result<Option<u32>, TermFault>
    requires { length ≤ 1000000 }
{
    let mut es = Family::Chain.equations(alloc, length)?;
    let Some(s) = unify(alloc, &es.store, es.pairs.as_slice())? else {
        return Ok(None);
    };
    let last = es.store.var(length, Sort::Any)?;
    match apply(&mut es.store, &s, last) {
        Ok(t) => Ok(Some(es.store.size(t))),
        Err(TermFault::TooLarge) => Ok(None),
        Err(e) => Err(e),
    }
}

/// 2^12 - 1 nodes are within the limit of 4,096; 2^13 - 1 and 2^250 - 1 are not.
#[test]
fn ends_of_chains(rt: HostRuntime) -> Result<(), Fail> {
    assert!(rt; last_of_chain(rt.alloc(), 0)? == Some(1));
    assert!(rt; last_of_chain(rt.alloc(), 11)? == Some(4095));
    assert!(rt; last_of_chain(rt.alloc(), 12)?.is_none());
    assert!(rt; last_of_chain(rt.alloc(), 249)?.is_none());
    Ok(())
}

/// Whether the last variable of a row becomes the first.
#[tactic(auto, using(term_store::proofs::Keeping::keeps_within))]
fn last_is_first(alloc: Global, length: u32) -> Result<bool, TermFault>
    requires { length ≤ 1000000 }
{
    let mut es = Family::Row.equations(alloc, length)?;
    let Some(s) = unify(alloc, &es.store, es.pairs.as_slice())? else {
        return Ok(false);
    };
    let last = es.store.var(length, Sort::Any)?;
    let first = es.store.var(0, Sort::Any)?;
    let image = apply(&mut es.store, &s, last)?;
    Ok(es.store.same(image, first))
}

#[test]
fn end_of_a_row(rt: HostRuntime) -> Result<(), Fail> {
    assert!(rt; last_is_first(rt.alloc(), 40_000)?);
    Ok(())
}
