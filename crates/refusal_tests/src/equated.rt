//! Putting one variable in the place of another.

use crate::stepping::{Case, is_so};
use std::test::Fail;

/// Its variables are X and Y, which are numbers, and W.
const PROGRAM: &str = "p(X,Y) :- X =< Y, Y =< X, q(W).";

const EQUATED: &str = "p(V1,V1) :- {num(V1)}, q(V2).\n";

/// What is shown is the lesser variable less the greater, whichever takes the place of the other.
static CASES: [Case; 17] = [
    ("equate 1 var 1 to 2 show [1,1,0]/[1,0,1].", Ok(EQUATED)),
    ("equate 1 var 2 to 1 show [1,1,0]/[1,0,1].", Ok(EQUATED)),
    (
        "equate 1 var 2 to 1 show [1,0,1]/[1,1,0].",
        Err("17 bad multipliers 1 not constant"),
    ),
    ("equate 1 var 1 to 2 show find.", Ok(EQUATED)),
    ("equate 0 var 1 to 2 show find.", Err("1 no clause 0")),
    ("equate 2 var 9 to 9 show find.", Err("1 no clause 2")),
    ("equate 1 var 0 to 5 show find.", Err("10 loose variable 0")),
    ("equate 1 var 4 to 4 show find.", Err("10 loose variable 4")),
    ("equate 1 var 3 to 4 show find.", Err("10 loose variable 4")),
    (
        "equate 1 var 1 to 1 show find.",
        Err("4 repeated position 1"),
    ),
    (
        "equate 1 var 3 to 3 show find.",
        Err("4 repeated position 3"),
    ),
    ("equate 1 var 3 to 1 show [1].", Err("22 not number 3")),
    ("equate 1 var 1 to 3 show [1].", Err("22 not number 3")),
    (
        "equate 1 var 1 to 2 show [1,1,0].",
        Err("17 bad multipliers 1 form"),
    ),
    (
        "equate 1 var 1 to 2 show [1,1]/[1,1].",
        Err("17 bad multipliers 1 count"),
    ),
    (
        "equate 1 var 1 to 2 show [1,1,0]/[1,0,-1].",
        Err("17 bad multipliers 1 negative"),
    ),
    (
        "equate 1 var 1 to 2 show [1,1,0]/[1,1,0].",
        Err("17 bad multipliers 1 not constant"),
    ),
];

const APART: &str = "p(X,Y) :- X =< Y + 1, Y =< X.";

static APART_CASES: [Case; 2] = [
    ("equate 1 var 1 to 2 show find.", Err("16 unentailed 1")),
    (
        "equate 1 var 1 to 2 show [1,1,0]/[1,0,1].",
        Err("17 bad multipliers 1 wrong sign"),
    ),
];

/// A greater variable in the place of a lesser one, in rows and atoms alike.
const CHAIN: &str = "p(X) :- X = Y, {X < 5, num(Z), X = Z}, q(Z).";

static CHAIN_CASES: [Case; 1] = [(
    "equate 1 var 1 to 2 show find.",
    Ok("p(V1) :- {V1 - 5 < 0}, q(V1).\n"),
)];

#[test]
fn equates(rt: HostRuntime) -> Result<(), Fail> {
    for (at, case) in CASES.iter().enumerate() {
        assert!(rt; is_so(rt.alloc(), PROGRAM, case)?, "case {at}");
    }
    for (at, case) in APART_CASES.iter().enumerate() {
        assert!(rt; is_so(rt.alloc(), APART, case)?, "apart {at}");
    }
    for (at, case) in CHAIN_CASES.iter().enumerate() {
        assert!(rt; is_so(rt.alloc(), CHAIN, case)?, "chain {at}");
    }
    Ok(())
}
