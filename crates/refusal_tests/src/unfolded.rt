//! Unfolding with rows and numbers.

use crate::stepping::{Case, is_so};
use itoa::Buffer;
use std::alloc::Global;
use std::test::Fail;
use term_store::NoMemory;

/// A program, and what unfolding its first clause at the first atom comes to.
type Unfolding = (&'static str, Result<&'static str, &'static str>);

static CASES: [Unfolding; 12] = [
    // a number meets a number
    (
        "p(X) :- X > 2, q(X). q(Y) :- Y < 5.",
        Ok("q(V1) :- {V1 - 5 < 0}.\np(V1) :- {-V1 + 2 < 0, V1 - 5 < 0}.\n"),
    ),
    (
        "p(X) :- {num(X)}, q(X). q(Y) :- {num(Y)}.",
        Ok("q(V1) :- {num(V1)}.\np(V1) :- {num(V1)}.\n"),
    ),
    // a number meets any value, and any value a number
    (
        "p(X) :- X > 2, q(X). q(Y).",
        Ok("q(V1).\np(V1) :- {-V1 + 2 < 0}.\n"),
    ),
    (
        "p(X) :- q(X). q(Y) :- Y > 2.",
        Ok("q(V1) :- {-V1 + 2 < 0}.\np(V1) :- {-V1 + 2 < 0}.\n"),
    ),
    // a number meets an application
    ("p(X) :- X > 2, q(X). q(a).", Ok("q(a).\n")),
    (
        "p(X) :- q(a), r(X). q(Y) :- Y > 2.",
        Ok("q(V1) :- {-V1 + 2 < 0}.\n"),
    ),
    // a row becomes true, and one becomes false
    (
        "p(X) :- q(X,X). q(Y,Z) :- Y =< Z.",
        Ok("q(V1,V2) :- {V1 - V2 =< 0}.\np(V1) :- {num(V1)}.\n"),
    ),
    (
        "p(X) :- q(X,X). q(Y,Z) :- Y < Z.",
        Ok("q(V1,V2) :- {V1 - V2 < 0}.\np(V1) :- {0 < 0, num(V1)}.\n"),
    ),
    // a row becomes one that is there
    (
        "p(X,Y) :- {X < Y}, q(X,Y). q(Y,Z) :- 2*Y < 2*Z.",
        Ok("q(V1,V2) :- {V1 - V2 < 0}.\np(V1,V2) :- {V1 - V2 < 0}.\n"),
    ),
    // by itself
    (
        "p(X) :- {X < 3, Y = X + 1}, p(Y).",
        Ok("p(V1) :- {V1 - 3 < 0, V1 - V3 + 1 = 0, V3 - 3 < 0, V2 - V3 - 1 = 0}, p(V2).\n"),
    ),
    // the second resolvent has a number that is too great
    (
        "p(X,Y) :- {4611686018427387904*X =< 1}, q(X,Y). q(X,Y). q(X,X) :- {X = Z}, r(Z). q(X,Y) :- {4611686018427387904*X + 4611686018427387904*Y + 1 =< 0}, s(Y,Y). ",
        Ok(
            "q(V1,V2).\nq(V1,V1) :- {V1 - V2 = 0}, r(V2).\nq(V1,V2) :- {4611686018427387904*V1 + 4611686018427387904*V2 + 1 =< 0}, s(V2,V2).\np(V1,V2) :- {4611686018427387904*V1 - 1 =< 0}.\np(V1,V1) :- {4611686018427387904*V1 - 1 =< 0, V1 - V2 = 0}, r(V2).\np(V1,V2) :- {4611686018427387904*V1 - 1 =< 0, 4611686018427387904*V1 + 4611686018427387904*V2 + 1 =< 0}, s(V2,V2).\n",
        ),
    ),
    (
        "p(X) :- q(X,X). q(X,Y). q(X,Y) :- {4611686018427387904*X + 4611686018427387904*Y + 1 =< 0}.",
        Err("23 overflow 0"),
    ),
];

#[test]
fn unfolds(rt: HostRuntime) -> Result<(), Fail> {
    for (at, case) in CASES.iter().enumerate() {
        let step: Case = ("unfold 1 at 1.", case.1);
        assert!(rt; is_so(rt.alloc(), case.0, &step)?, "case {at}");
    }
    Ok(())
}

/// A clause with 64 rows that calls one with so many others.
fn rows(alloc: Global, count: u32) -> Result<String, NoMemory> {
    let mut text = String::new(alloc);
    text.push_str("p(X) :- {num(X)")?;
    for n in 0..64u64 {
        text.push_str(", X =< Y + ")?;
        text.push_str(Buffer::new().format(n))?;
    }
    text.push_str("}, q(X). q(X) :- {num(X)")?;
    for n in 0..count {
        text.push_str(", X < ")?;
        text.push_str(Buffer::new().format(n))?;
    }
    text.push_str("}.")?;
    Ok(text)
}

#[test]
fn rows_have_a_limit(rt: HostRuntime) -> Result<(), Fail> {
    let refused: Case = ("unfold 1 at 1.", Err("24 too large rows"));
    let past = rows(rt.alloc(), 65)?;
    assert!(rt; is_so(rt.alloc(), past.as_str(), &refused)?);
    let within = rows(rt.alloc(), 64)?;
    assert!(rt; !is_so(rt.alloc(), within.as_str(), &refused)?);
    Ok(())
}
