//! Clauses that are equal up to the numbers of their variables, and clauses that are not.

use crate::formed::is_well_formed;
use crate::shapes::Shape::{self, App, V};
use crate::shapes::{Written, source};
use clause_loader::load_one;
use clause_store::{ClauseFault, SourceClause, variant};
use clp_model::{Rel, Sort};
use std::alloc::Global;
use std::test::Fail;
use term_store::Store;

/// Two clauses, and whether they are variants.
type Case = (Written, Written, bool);

const A: Shape = App("a", &[]);

const NUMS: [Sort; 3] = [Sort::Num, Sort::Num, Sort::Num];

const ANY: [Sort; 3] = [Sort::Any, Sort::Any, Sort::Any];

static CASES: [Case; 14] = [
    // other numbers
    (
        (
            App("p", &[V(1), V(2), V(1)]),
            &[],
            &[],
            &[App("q", &[V(3)])],
            &ANY,
        ),
        (
            App("p", &[V(3), V(1), V(3)]),
            &[],
            &[],
            &[App("q", &[V(2)])],
            &ANY,
        ),
        true,
    ),
    (
        (
            App("p", &[V(1), V(2)]),
            &[],
            &[(Rel::Le, [1, -1, 0, 0], 4)],
            &[],
            &NUMS,
        ),
        (
            App("p", &[V(3), V(1)]),
            &[],
            &[(Rel::Le, [-1, 0, 1, 0], 4)],
            &[],
            &NUMS,
        ),
        true,
    ),
    // rows with a common divisor, repeats, and a true constant
    (
        (
            App("p", &[V(1)]),
            &[],
            &[(Rel::Eq, [2, 0, 0, 0], 4), (Rel::Le, [0, 0, 0, 0], -1)],
            &[],
            &NUMS,
        ),
        (
            App("p", &[V(2)]),
            &[],
            &[(Rel::Eq, [0, -1, 0, 0], -2), (Rel::Eq, [0, 3, 0, 0], 6)],
            &[],
            &NUMS,
        ),
        true,
    ),
    // an equation that is carried out
    (
        (
            App("p", &[V(1), V(2)]),
            &[(V(1), App("f", &[V(2)]))],
            &[],
            &[],
            &ANY,
        ),
        (App("p", &[App("f", &[V(3)]), V(3)]), &[], &[], &[], &ANY),
        true,
    ),
    // rows in another order
    (
        (
            App("p", &[V(1)]),
            &[],
            &[(Rel::Le, [1, 0, 0, 0], 0), (Rel::Lt, [1, 0, 0, 0], 1)],
            &[],
            &NUMS,
        ),
        (
            App("p", &[V(1)]),
            &[],
            &[(Rel::Lt, [1, 0, 0, 0], 1), (Rel::Le, [1, 0, 0, 0], 0)],
            &[],
            &NUMS,
        ),
        false,
    ),
    // other rows: another relation, another coefficient, another constant, one more
    (
        (
            App("p", &[V(1)]),
            &[],
            &[(Rel::Le, [2, 0, 0, 0], 1)],
            &[],
            &NUMS,
        ),
        (
            App("p", &[V(1)]),
            &[],
            &[(Rel::Lt, [2, 0, 0, 0], 1)],
            &[],
            &NUMS,
        ),
        false,
    ),
    (
        (
            App("p", &[V(1)]),
            &[],
            &[(Rel::Le, [2, 0, 0, 0], 1)],
            &[],
            &NUMS,
        ),
        (
            App("p", &[V(1)]),
            &[],
            &[(Rel::Le, [3, 0, 0, 0], 1)],
            &[],
            &NUMS,
        ),
        false,
    ),
    (
        (
            App("p", &[V(1)]),
            &[],
            &[(Rel::Le, [2, 0, 0, 0], 1)],
            &[],
            &NUMS,
        ),
        (
            App("p", &[V(1)]),
            &[],
            &[(Rel::Le, [2, 0, 0, 0], 3)],
            &[],
            &NUMS,
        ),
        false,
    ),
    (
        (
            App("p", &[V(1)]),
            &[],
            &[(Rel::Le, [2, 0, 0, 0], 1)],
            &[],
            &NUMS,
        ),
        (
            App("p", &[V(1)]),
            &[],
            &[(Rel::Le, [2, 0, 0, 0], 1), (Rel::Lt, [0, 0, 0, 0], 0)],
            &[],
            &NUMS,
        ),
        false,
    ),
    // other sorts
    (
        (App("p", &[V(1)]), &[], &[], &[], &[Sort::Any]),
        (App("p", &[V(1)]), &[], &[], &[], &[Sort::Num]),
        false,
    ),
    (
        (
            App("p", &[V(1), V(2)]),
            &[],
            &[],
            &[],
            &[Sort::Any, Sort::Num],
        ),
        (
            App("p", &[V(2), V(1)]),
            &[],
            &[],
            &[],
            &[Sort::Any, Sort::Num],
        ),
        false,
    ),
    // two variables, and one twice
    (
        (App("p", &[V(1), V(2)]), &[], &[], &[], &ANY),
        (App("p", &[V(1), V(1)]), &[], &[], &[], &ANY),
        false,
    ),
    // atoms in another order, and other atoms of the same predicates
    (
        (
            App("p", &[]),
            &[],
            &[],
            &[App("q", &[]), App("r", &[])],
            &[],
        ),
        (
            App("p", &[]),
            &[],
            &[],
            &[App("r", &[]), App("q", &[])],
            &[],
        ),
        false,
    ),
    (
        (App("p", &[]), &[], &[], &[App("q", &[A])], &[]),
        (App("p", &[]), &[], &[], &[App("q", &[V(1)])], &ANY),
        false,
    ),
];

/// Whether the clauses that two source clauses are loaded as are variants, if both are loaded.
fn compared(
    alloc: Global,
    first: &SourceClause,
    second: &SourceClause,
) -> Result<Option<bool>, ClauseFault> {
    if !is_well_formed(first) {
        return Ok(None);
    }
    if !is_well_formed(second) {
        return Ok(None);
    }
    let mut store = Store::new(alloc);
    let Some(c) = load_one(alloc, &mut store, first)? else {
        return Ok(None);
    };
    let Some(d) = load_one(alloc, &mut store, second)? else {
        return Ok(None);
    };
    Ok(Some(variant(&store, &c, &d)))
}

/// Whether the clauses of a case compare so, in both orders, and each with itself.
fn holds(alloc: Global, case: &Case) -> Result<bool, ClauseFault> {
    let first = source(alloc, &case.0)?;
    let second = source(alloc, &case.1)?;
    Ok(
        compared(alloc, &first, &second)? == Some(case.2)
            && compared(alloc, &second, &first)? == Some(case.2)
            && compared(alloc, &first, &first)? == Some(true)
            && compared(alloc, &second, &second)? == Some(true),
    )
}

#[test]
fn variants_are_told(rt: HostRuntime) -> Result<(), Fail> {
    for (number, case) in CASES.iter().enumerate() {
        assert!(rt; holds(rt.alloc(), case)?, "variants {number}");
    }
    Ok(())
}
