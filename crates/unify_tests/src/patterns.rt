//! Patterns and targets, and what becomes of terms where the patterns become the targets, worked out by hand.

use crate::shapes::Shape::{self, Any, App, Num};
use crate::shapes::put_sides;
use crate::tables::all_become;
use std::alloc::Global;
use std::test::Fail;
use term_store::{Store, TermFault};
use unify::matching;

/// Patterns with their targets, and if there is a substitution, some terms and what these become.
type Case = (&'static [(Shape, Shape)], Option<&'static [(Shape, Shape)]>);

const A: Shape = App("a", &[]);

const B: Shape = App("b", &[]);

static CASES: [Case; 18] = [
    // no patterns
    (&[], Some(&[(Any(1), Any(1))])),
    // images are put in at once: the variables of targets are constants, whatever their numbers
    (
        &[(Any(1), Any(2)), (Any(2), A)],
        Some(&[(App("f", &[Any(1), Any(2)]), App("f", &[Any(2), A]))]),
    ),
    (
        &[(App("p", &[Any(1), Any(2)]), App("p", &[Any(2), Any(1)]))],
        Some(&[(Any(1), Any(2)), (Any(2), Any(1)), (Any(3), Any(3))]),
    ),
    (
        &[(Any(1), App("f", &[Any(1)]))],
        Some(&[(Any(1), App("f", &[Any(1)]))]),
    ),
    // a variable that occurs twice
    (
        &[(App("f", &[Any(1), Any(1)]), App("f", &[A, A]))],
        Some(&[(Any(1), A)]),
    ),
    (&[(App("f", &[Any(1), Any(1)]), App("f", &[A, B]))], None),
    (&[(Any(1), A), (Any(1), B)], None),
    (&[(Any(1), Any(2)), (Any(1), Any(3))], None),
    (
        &[
            (Any(1), App("g", &[A])),
            (App("h", &[Any(1)]), App("h", &[App("g", &[A])])),
        ],
        Some(&[(Any(1), App("g", &[A]))]),
    ),
    // sorts
    (&[(Any(1), Num(2))], Some(&[(Any(1), Num(2))])),
    (
        &[(Num(1), Num(2))],
        Some(&[(Num(1), Num(2)), (Any(1), Any(1))]),
    ),
    (&[(Num(1), Any(2))], None),
    (&[(Num(1), A)], None),
    // the target's variables don't become anything
    (&[(A, Any(1))], None),
    (&[(App("f", &[Any(1)]), Any(2))], None),
    // names and numbers of arguments
    (&[(A, B)], None),
    (&[(App("f", &[Any(1)]), App("f", &[A, A]))], None),
    (
        &[(App("f", &[A, Any(1)]), App("f", &[A, App("g", &[Num(7)])]))],
        Some(&[(Any(1), App("g", &[Num(7)]))]),
    ),
];

/// Whether a case is as it should be.
fn holds(alloc: Global, case: &Case) -> Result<bool, TermFault> {
    let mut store = Store::new(alloc);
    let (patterns, targets) = put_sides(alloc, &mut store, case.0)?;
    let found = matching(alloc, &store, patterns.as_slice(), targets.as_slice())?;
    match (found, case.1) {
        (None, None) => Ok(true),
        (Some(s), Some(images)) => all_become(alloc, &mut store, &s, images),
        _ => Ok(false),
    }
}

#[test]
fn small_patterns(rt: HostRuntime) -> Result<(), Fail> {
    for (number, case) in CASES.iter().enumerate() {
        assert!(rt; holds(rt.alloc(), case)?, "case {number}");
    }
    Ok(())
}
