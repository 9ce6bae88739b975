//! Projecting a variable out of the rows.

use crate::stepping::{Case, is_so};
use itoa::Buffer;
use std::alloc::Global;
use std::test::Fail;
use term_store::NoMemory;

/// Its variables are X, then W, which may be any value, and Y and Z.
const PROGRAM: &str = "p(X) :- X < Y, Y < Z, Z < 5, q(W).";

static CASES: [Case; 8] = [
    (
        "project 1 var 3.",
        Ok("p(V1) :- {V3 - 5 < 0, V1 - V3 < 0}, q(V2).\n"),
    ),
    (
        "project 1 var 4.",
        Ok("p(V1) :- {V1 - V3 < 0, V3 - 5 < 0}, q(V2).\n"),
    ),
    ("project 0 var 3.", Err("1 no clause 0")),
    ("project 2 var 9.", Err("1 no clause 2")),
    ("project 1 var 0.", Err("10 loose variable 0")),
    ("project 1 var 5.", Err("10 loose variable 5")),
    ("project 1 var 2.", Err("22 not number 2")),
    ("project 1 var 1.", Err("20 still used 1")),
];

const EQUATION: &str = "p(X) :- {Y = X + 1, Y < 7}.";

static EQUATION_CASES: [Case; 2] = [
    ("project 1 var 2.", Ok("p(V1) :- {V1 - 6 < 0}.\n")),
    ("project 1 var 1.", Err("20 still used 1")),
];

/// A variable of a body atom.
const CALLED: &str = "p :- {Y < 7}, q(Y).";

static CALLED_CASES: [Case; 1] = [("project 1 var 1.", Err("20 still used 1"))];

/// A row of greater numbers than there may be is made, and one of the greatest that may be.
const GREAT: &str = "p :- {9223372036854775807*Y - 3*X =< 0, 5*X - 9223372036854775806*Z =< 0}.";

static GREAT_CASES: [Case; 1] = [("project 1 var 2.", Err("23 overflow 0"))];

const GREATEST: &str = "p :- {9223372036854775807*Y - X =< 0, X - 9223372036854775806*Z =< 0}.";

static GREATEST_CASES: [Case; 1] = [(
    "project 1 var 2.",
    Ok("p :- {9223372036854775807*V1 - 9223372036854775806*V2 =< 0}.\n"),
)];

#[test]
fn projects(rt: HostRuntime) -> Result<(), Fail> {
    for (at, case) in CASES.iter().enumerate() {
        assert!(rt; is_so(rt.alloc(), PROGRAM, case)?, "case {at}");
    }
    for (at, case) in EQUATION_CASES.iter().enumerate() {
        assert!(rt; is_so(rt.alloc(), EQUATION, case)?, "equation {at}");
    }
    for case in CALLED_CASES.iter() {
        assert!(rt; is_so(rt.alloc(), CALLED, case)?);
    }
    for case in GREAT_CASES.iter() {
        assert!(rt; is_so(rt.alloc(), GREAT, case)?);
    }
    for case in GREATEST_CASES.iter() {
        assert!(rt; is_so(rt.alloc(), GREATEST, case)?);
    }
    Ok(())
}

/// A clause whose second variable, Z, has so many bounds below, and so many above.
fn bounds(alloc: Global, lower: u32, upper: u32) -> Result<String, NoMemory> {
    let mut text = String::new(alloc);
    text.push_str("h(a) :- {num(X), num(Z)")?;
    for n in 0..lower {
        text.push_str(", Y")?;
        text.push_str(Buffer::new().format(n))?;
        text.push_str(" =< Z")?;
    }
    for n in 0..upper {
        text.push_str(", Z =< W")?;
        text.push_str(Buffer::new().format(n))?;
    }
    text.push_str("}, q(X).")?;
    Ok(text)
}

#[test]
fn rows_have_a_limit(rt: HostRuntime) -> Result<(), Fail> {
    let past = bounds(rt.alloc(), 3, 43)?;
    let refused: Case = ("project 1 var 2.", Err("24 too large rows"));
    assert!(rt; is_so(rt.alloc(), past.as_str(), &refused)?);
    let within = bounds(rt.alloc(), 8, 16)?;
    assert!(rt; !is_so(rt.alloc(), within.as_str(), &refused)?);
    Ok(())
}
