//! Adding a row.

use crate::stepping::{Case, is_so};
use std::test::Fail;

/// Its variables are X, Y and Z, which are numbers, and W.
const PROGRAM: &str = "p(X,Y,Z) :- X < Y, Y < Z, q(a,W).";

const ADDED: &str = "p(V1,V2,V3) :- {V1 - V2 < 0, V2 - V3 < 0, V1 - V3 < 0}, q(a,V4).\n";

const WEAKER: &str = "p(V1,V2,V3) :- {V1 - V2 < 0, V2 - V3 < 0, V1 - V3 =< 0}, q(a,V4).\n";

const SAME: &str = "p(V1,V2,V3) :- {V1 - V2 < 0, V2 - V3 < 0}, q(a,V4).\n";

static CASES: [Case; 24] = [
    ("add 1 row V1 < V3 show [1,1,1].", Ok(ADDED)),
    ("add 1 row V1 < V3 show find.", Ok(ADDED)),
    ("add 1 row 2*V3 - 2*V1 > 0 show find.", Ok(ADDED)),
    ("add 1 row V1 =< V3 show [1,1,1].", Ok(WEAKER)),
    ("add 1 row V2 > V1 show find.", Ok(SAME)),
    ("add 1 row 0 =< 1 show [1,0,0].", Ok(SAME)),
    ("add 0 row V5 < V1 show find.", Err("1 no clause 0")),
    ("add 2 row V1 < V3 show find.", Err("1 no clause 2")),
    ("add 1 row V5 < V1 show find.", Err("10 loose variable 5")),
    ("add 1 row V5 < V1 show [1].", Err("10 loose variable 5")),
    ("add 1 row V1 < V4 show find.", Err("22 not number 4")),
    ("add 1 row V5 < V4 show find.", Err("22 not number 4")),
    ("add 1 row V6 < V5 show find.", Err("10 loose variable 5")),
    ("add 1 row V3 < V1 show find.", Err("16 unentailed 1")),
    ("add 1 row V1 + 1 < V3 show find.", Err("16 unentailed 1")),
    ("add 1 row V1 = V3 show find.", Err("16 unentailed 1")),
    (
        "add 1 row V1 < V3 show [1,1,1]/[1,1,1].",
        Err("17 bad multipliers 1 form"),
    ),
    (
        "add 1 row V1 < V3 show [1,1].",
        Err("17 bad multipliers 1 count"),
    ),
    (
        "add 1 row V1 < V3 show [1,1,1,0].",
        Err("17 bad multipliers 1 count"),
    ),
    (
        "add 1 row V1 < V3 show [1,-1,1].",
        Err("17 bad multipliers 1 negative"),
    ),
    (
        "add 1 row V1 < V3 show [1,1,0].",
        Err("17 bad multipliers 1 not constant"),
    ),
    (
        "add 1 row V1 + 1 < V3 show [1,1,1].",
        Err("17 bad multipliers 1 wrong sign"),
    ),
    (
        "add 1 row V1 = V3 show [1,1,1].",
        Err("17 bad multipliers 1 form"),
    ),
    (
        "add 1 row V1 = V3 show [1,1,1]/[1,1,1].",
        Err("17 bad multipliers 1 not constant"),
    ),
];

const EQUAL: &str = "p(X,Y) :- X =< Y, Y =< X.";

const EQUATION_ADDED: &str = "p(V1,V2) :- {V1 - V2 =< 0, -V1 + V2 =< 0, V1 - V2 = 0}.\n";

static EQUATION_CASES: [Case; 4] = [
    (
        "add 1 row V1 = V2 show [1,1,0]/[1,0,1].",
        Ok(EQUATION_ADDED),
    ),
    ("add 1 row V2 = V1 show find.", Ok(EQUATION_ADDED)),
    (
        "add 1 row V1 = V2 show [1,1,0].",
        Err("17 bad multipliers 1 form"),
    ),
    (
        "add 1 row V1 = V2 show [1,1,0]/[1,1,0].",
        Err("17 bad multipliers 1 not constant"),
    ),
];

/// The finder makes a row of greater numbers than there may be.
const GREAT: &str =
    "p(X,Y,Z) :- {9223372036854775807*Y - 3*X =< 0, 5*X - 9223372036854775806*Z =< 0}.";

static GREAT_CASES: [Case; 1] = [("add 1 row V2 =< V3 show find.", Err("23 overflow 1"))];

#[test]
fn adds(rt: HostRuntime) -> Result<(), Fail> {
    for (at, case) in CASES.iter().enumerate() {
        assert!(rt; is_so(rt.alloc(), PROGRAM, case)?, "case {at}");
    }
    for (at, case) in EQUATION_CASES.iter().enumerate() {
        assert!(rt; is_so(rt.alloc(), EQUAL, case)?, "equation {at}");
    }
    for (at, case) in GREAT_CASES.iter().enumerate() {
        assert!(rt; is_so(rt.alloc(), GREAT, case)?, "great numbers {at}");
    }
    Ok(())
}
