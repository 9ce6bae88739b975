//! Programs, and what they are loaded as, worked out by hand.

use crate::loads::gives;
use crate::shapes::Shape::{self, App, V};
use crate::shapes::{Written, sources};
use clause_loader::LoadFault;
use clause_store::ClauseFault;
use clp_model::{Rel, Sort};
use std::alloc::Global;
use std::test::Fail;

/// Source clauses, and the text of their clauses and predicates, or the fault.
type Case = (&'static [Written], Result<&'static str, LoadFault>);

/// A little less than half of 2^63, so that two of it are a coefficient, and half of it, of which two are none.
const LESS: i128 = 4_611_686_018_427_387_903;

const HALF: i128 = 4_611_686_018_427_387_904;

const A: Shape = App("a", &[]);

const NUMS: [Sort; 4] = [Sort::Num, Sort::Num, Sort::Num, Sort::Num];

const ANY: [Sort; 4] = [Sort::Any, Sort::Any, Sort::Any, Sort::Any];

/// Canonical forms.
static FORMS: [Case; 14] = [
    (&[], Ok("")),
    (&[(App("p", &[]), &[], &[], &[], &[])], Ok("p.\np/0")),
    // variables by first occurrence in the head, then the atoms and then the rows; the text has the rows first
    (
        &[(
            App("p", &[V(3), App("f", &[V(1), V(3)])]),
            &[],
            &[(Rel::Le, [1, 0, 0, 1], 2)],
            &[App("q", &[V(4), V(2)]), App("r", &[V(1)])],
            &[Sort::Num, Sort::Any, Sort::Any, Sort::Num],
        )],
        Ok("p(V1,f(V2,V1)) :- {V2 + V3 + 2 =< 0}, q(V3,V4), r(V2).\np/2 q/2 r/1"),
    ),
    (
        &[(
            App("p", &[V(3)]),
            &[],
            &[(Rel::Lt, [0, 3, 0, -2], 0), (Rel::Eq, [1, 0, 0, -1], 0)],
            &[],
            &NUMS,
        )],
        Ok("p(V1) :- {3*V2 - 2*V3 < 0, V3 - V4 = 0, num(V1)}.\np/1"),
    ),
    // a variable that does not occur is left out, and so is its sort
    (
        &[(
            App("p", &[V(4)]),
            &[],
            &[],
            &[App("q", &[V(2)])],
            &[Sort::Any, Sort::Num, Sort::Num, Sort::Any],
        )],
        Ok("p(V1) :- {num(V2)}, q(V2).\np/1 q/1"),
    ),
    // Num variables in no row
    (
        &[(App("p", &[V(1), V(2)]), &[], &[], &[], &NUMS)],
        Ok("p(V1,V2) :- {num(V1), num(V2)}.\np/2"),
    ),
    (
        &[(
            App("p", &[V(2)]),
            &[],
            &[(Rel::Le, [1, 0, 0, 0], 0)],
            &[App("q", &[V(3), V(1)])],
            &NUMS,
        )],
        Ok("p(V1) :- {V3 =< 0, num(V1), num(V2)}, q(V2,V3).\np/1 q/2"),
    ),
    // a repeated row is left out, also where it is a repeat in normal form alone
    (
        &[(
            App("p", &[V(1), V(2)]),
            &[],
            &[
                (Rel::Le, [1, 2, 0, 0], 0),
                (Rel::Lt, [1, 2, 0, 0], 0),
                (Rel::Le, [1, 2, 0, 0], 0),
                (Rel::Le, [2, 4, 0, 0], 0),
            ],
            &[],
            &NUMS,
        )],
        Ok("p(V1,V2) :- {V1 + 2*V2 =< 0, V1 + 2*V2 < 0}.\np/2"),
    ),
    // an equation of the opposite sum is a repeat, and an inequality of it is none
    (
        &[(
            App("p", &[V(1), V(2)]),
            &[],
            &[
                (Rel::Eq, [1, -2, 0, 0], 3),
                (Rel::Eq, [-1, 2, 0, 0], -3),
                (Rel::Le, [1, -2, 0, 0], 3),
                (Rel::Le, [-1, 2, 0, 0], -3),
            ],
            &[],
            &NUMS,
        )],
        Ok("p(V1,V2) :- {V1 - 2*V2 + 3 = 0, V1 - 2*V2 + 3 =< 0, -V1 + 2*V2 - 3 =< 0}.\np/2"),
    ),
    // a true constant row is left out
    (
        &[(
            App("p", &[]),
            &[],
            &[
                (Rel::Eq, [0, 0, 0, 0], 0),
                (Rel::Le, [0, 0, 0, 0], 0),
                (Rel::Le, [0, 0, 0, 0], -4),
                (Rel::Lt, [0, 0, 0, 0], -4),
            ],
            &[],
            &[],
        )],
        Ok("p.\np/0"),
    ),
    // a false constant row stays
    (
        &[(
            App("p", &[]),
            &[],
            &[
                (Rel::Eq, [0, 0, 0, 0], 7),
                (Rel::Le, [0, 0, 0, 0], 2),
                (Rel::Lt, [0, 0, 0, 0], 0),
                (Rel::Le, [0, 0, 0, 0], 3),
            ],
            &[],
            &[],
        )],
        Ok("p :- {1 = 0, 1 =< 0, 0 < 0}.\np/0"),
    ),
    // a row of variables in no term
    (
        &[(
            App("p", &[]),
            &[],
            &[(Rel::Lt, [0, 0, -1, 1], 0), (Rel::Eq, [0, 0, 0, 2], 1)],
            &[],
            &NUMS,
        )],
        Ok("p :- {-V1 + V2 < 0, 2*V2 + 1 = 0}.\np/0"),
    ),
    // names that are quoted, and lists
    (
        &[(
            App("is it", &[App(".", &[V(1), V(2)])]),
            &[],
            &[],
            &[App("Q", &[App("[]", &[]), App("[]", &[V(2)])])],
            &ANY,
        )],
        Ok("'is it'([V1|V2]) :- 'Q'([],'[]'(V2)).\n'is it'/1 'Q'/2"),
    ),
    // equal clauses stay, and predicates are told apart by their numbers of arguments
    (
        &[
            (App("p", &[A]), &[], &[], &[App("q", &[])], &[]),
            (App("p", &[A]), &[], &[], &[App("q", &[])], &[]),
            (App("q", &[A]), &[], &[], &[App("p", &[])], &[]),
        ],
        Ok("p(a) :- q.\np(a) :- q.\nq(a) :- p.\np/1 q/0 q/1 p/0"),
    ),
];

/// Equations.
static SOLVED: [Case; 13] = [
    // carried out in the head, the atoms and the rows
    (
        &[(
            App("p", &[V(1), V(2)]),
            &[(V(1), App("f", &[V(2), V(3)])), (V(4), V(3))],
            &[(Rel::Le, [0, 0, 1, 0], -2), (Rel::Lt, [0, 0, 0, -3], 1)],
            &[App("q", &[V(1), V(4)])],
            &[Sort::Any, Sort::Any, Sort::Num, Sort::Num],
        )],
        Ok("p(f(V1,V2),V1) :- {V2 - 2 =< 0, -3*V2 + 1 < 0}, q(f(V1,V2),V2).\np/2 q/2"),
    ),
    // an Any variable becomes a Num variable
    (
        &[(
            App("p", &[V(1), V(2)]),
            &[(V(1), V(2))],
            &[(Rel::Le, [0, 1, 0, 0], -1)],
            &[],
            &[Sort::Any, Sort::Num],
        )],
        Ok("p(V1,V1) :- {V1 - 1 =< 0}.\np/2"),
    ),
    // two coefficients are added, and the row is in normal form again
    (
        &[(
            App("p", &[V(1), V(2), V(3)]),
            &[(V(1), V(2))],
            &[(Rel::Le, [1, 1, 0, 0], -2), (Rel::Eq, [-1, 2, 1, 0], 0)],
            &[],
            &NUMS,
        )],
        Ok("p(V1,V1,V2) :- {V1 - 1 =< 0, V1 + V2 = 0}.\np/3"),
    ),
    // coefficients that cancel leave a constant: one that is true is left out, one that is false stays
    (
        &[(
            App("p", &[V(1), V(2)]),
            &[(V(1), V(2))],
            &[(Rel::Le, [1, -1, 0, 0], 0), (Rel::Lt, [1, -1, 0, 0], 0)],
            &[],
            &NUMS,
        )],
        Ok("p(V1,V1) :- {0 < 0, num(V1)}.\np/2"),
    ),
    // rows that become equal are one
    (
        &[(
            App("p", &[V(1), V(2)]),
            &[(V(1), V(2))],
            &[(Rel::Le, [1, 0, 0, 0], -1), (Rel::Le, [0, 1, 0, 0], -1)],
            &[],
            &NUMS,
        )],
        Ok("p(V1,V1) :- {V1 - 1 =< 0}.\np/2"),
    ),
    // what the equations alone have is left out
    (
        &[(
            App("p", &[]),
            &[(App("f", &[V(1), A]), App("f", &[V(2), V(3)]))],
            &[],
            &[],
            &[Sort::Any, Sort::Num, Sort::Any],
        )],
        Ok("p.\np/0"),
    ),
    // nothing solves them: a clash of names, of numbers of arguments, and of sorts
    (
        &[
            (App("p", &[]), &[(A, App("b", &[]))], &[], &[], &[]),
            (App("p", &[]), &[(A, App("a", &[A]))], &[], &[], &[]),
            (App("p", &[V(1)]), &[(V(1), A)], &[], &[], &NUMS),
            (
                App("p", &[V(1)]),
                &[(App("f", &[V(2)]), V(1))],
                &[],
                &[],
                &[Sort::Num, Sort::Any],
            ),
            (
                App("p", &[]),
                &[(V(1), A), (V(1), V(2))],
                &[],
                &[],
                &[Sort::Any, Sort::Num],
            ),
        ],
        Ok("-\n-\n-\n-\n-\np/0 p/1"),
    ),
    // a variable in what it would become, whose clause's predicates count
    (
        &[
            (
                App("p", &[V(1)]),
                &[(V(1), App("f", &[V(1)]))],
                &[],
                &[],
                &ANY,
            ),
            (App("q", &[A]), &[], &[], &[], &[]),
        ],
        Ok("-\nq(a).\np/1 q/1"),
    ),
    (
        &[
            (App("q", &[]), &[], &[], &[App("r", &[A])], &[]),
            (
                App("p", &[V(1), V(2)]),
                &[(V(1), App("f", &[V(2)])), (V(2), App("g", &[V(1)]))],
                &[],
                &[App("r", &[A]), App("s", &[])],
                &ANY,
            ),
            (App("t", &[]), &[], &[], &[], &[]),
        ],
        Ok("q :- r(a).\n-\nt.\nq/0 r/1 p/2 s/0 t/0"),
    ),
    // a row that could not be kept does not count where nothing solves the equations
    (
        &[(
            App("p", &[]),
            &[(V(1), V(2)), (A, App("b", &[]))],
            &[(Rel::Le, [HALF, HALF, 0, 0], 1)],
            &[],
            &NUMS,
        )],
        Ok("-\np/0"),
    ),
    // the first refused clause decides
    (
        &[
            (App("p", &[]), &[], &[], &[], &[]),
            (App("p", &[]), &[(V(1), App("f", &[V(1)]))], &[], &[], &ANY),
            (
                App("p", &[]),
                &[(V(1), V(2))],
                &[(Rel::Eq, [HALF, HALF, 0, 0], 1)],
                &[],
                &NUMS,
            ),
            (
                App("p", &[]),
                &[(V(1), V(3))],
                &[(Rel::Eq, [HALF, 0, HALF, 0], 1)],
                &[],
                &NUMS,
            ),
        ],
        Err(LoadFault::Overflow(3)),
    ),
    // a sum of variables that stay apart does not leave the range
    (
        &[(
            App("p", &[]),
            &[(V(3), V(4))],
            &[(Rel::Le, [HALF, HALF, 0, 0], 1)],
            &[],
            &NUMS,
        )],
        Ok("p :- {4611686018427387904*V1 + 4611686018427387904*V2 + 1 =< 0}.\np/0"),
    ),
    // the normal form counts: what is out of range before it is divided may be in range
    (
        &[(
            App("p", &[V(1)]),
            &[(V(1), V(2))],
            &[(Rel::Le, [HALF, HALF, 0, 0], 2)],
            &[],
            &NUMS,
        )],
        Ok("p(V1) :- {4611686018427387904*V1 + 1 =< 0}.\np/1"),
    ),
];

/// Programs that show how an equation, a row and a list are read.
static SHOWN: [Case; 5] = [
    // p(X, Y) :- {4611686018427387903*X + 4611686018427387903*Y + 1 =< 0, X = Y}, where X = Y is a row
    (
        &[(
            App("p", &[V(1), V(2)]),
            &[],
            &[
                (Rel::Le, [LESS, LESS, 0, 0], 1),
                (Rel::Eq, [1, -1, 0, 0], 0),
            ],
            &[],
            &NUMS,
        )],
        Ok(
            "p(V1,V2) :- {4611686018427387903*V1 + 4611686018427387903*V2 + 1 =< 0, V1 - V2 = 0}.\np/2",
        ),
    ),
    // and where it is an equation: at the limit, and past it
    (
        &[(
            App("p", &[V(1), V(2)]),
            &[(V(1), V(2))],
            &[(Rel::Le, [LESS, LESS, 0, 0], 1)],
            &[],
            &NUMS,
        )],
        Ok("p(V1,V1) :- {9223372036854775806*V1 + 1 =< 0}.\np/2"),
    ),
    (
        &[
            (App("q", &[]), &[], &[], &[], &[]),
            (
                App("p", &[V(1), V(2)]),
                &[(V(1), V(2))],
                &[(Rel::Le, [HALF, HALF, 0, 0], 1)],
                &[],
                &NUMS,
            ),
        ],
        Err(LoadFault::Overflow(2)),
    ),
    // m([1, a, X]) :- X > 1/2.
    (
        &[(
            App(
                "m",
                &[App(
                    ".",
                    &[V(1), App(".", &[A, App(".", &[V(2), App("[]", &[])])])],
                )],
            ),
            &[],
            &[(Rel::Eq, [1, 0, 0, 0], -1), (Rel::Lt, [0, -2, 0, 0], 1)],
            &[],
            &[Sort::Num, Sort::Num],
        )],
        Ok("m([V1,a,V2]) :- {V1 - 1 = 0, -2*V2 + 1 < 0}.\nm/1"),
    ),
    // p(X) :- X = f(X). q(a).
    (
        &[
            (
                App("p", &[V(1)]),
                &[(V(1), App("f", &[V(1)]))],
                &[],
                &[],
                &[Sort::Any],
            ),
            (App("q", &[A]), &[], &[], &[], &[]),
        ],
        Ok("-\nq(a).\np/1 q/1"),
    ),
];

/// Whether loading the clauses of a case gives what it says.
fn holds(alloc: Global, case: &Case) -> Result<bool, ClauseFault> {
    let clauses = sources(alloc, case.0)?;
    gives(alloc, clauses.as_slice(), &case.1)
}

#[test]
fn programs_are_loaded(rt: HostRuntime) -> Result<(), Fail> {
    for (number, case) in FORMS.iter().enumerate() {
        assert!(rt; holds(rt.alloc(), case)?, "form {number}");
    }
    for (number, case) in SOLVED.iter().enumerate() {
        assert!(rt; holds(rt.alloc(), case)?, "solved {number}");
    }
    for (number, case) in SHOWN.iter().enumerate() {
        assert!(rt; holds(rt.alloc(), case)?, "shown {number}");
    }
    Ok(())
}
