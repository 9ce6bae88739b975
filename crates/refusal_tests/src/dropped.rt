//! Dropping a row.

use crate::stepping::{Case, is_so};
use std::test::Fail;

const PROGRAM: &str = "p(X) :- X < 1, X < 2.";

const DROPPED: &str = "p(V1) :- {V1 - 1 < 0}.\n";

static CASES: [Case; 17] = [
    ("drop 1 row 2 show [1,1].", Ok(DROPPED)),
    ("drop 1 row 2 show find.", Ok(DROPPED)),
    ("drop 1 row 2 show [2,2].", Ok(DROPPED)),
    ("drop 0 row 1 show find.", Err("1 no clause 0")),
    ("drop 2 row 9 show find.", Err("1 no clause 2")),
    ("drop 1 row 0 show find.", Err("3 no row 0")),
    ("drop 1 row 3 show [1].", Err("3 no row 3")),
    ("drop 1 row 1 show find.", Err("16 unentailed 1")),
    (
        "drop 1 row 2 show [1,1]/[1,1].",
        Err("17 bad multipliers 1 form"),
    ),
    (
        "drop 1 row 2 show [1]/[1].",
        Err("17 bad multipliers 1 form"),
    ),
    ("drop 1 row 2 show [1].", Err("17 bad multipliers 1 count")),
    (
        "drop 1 row 2 show [1,-1,1].",
        Err("17 bad multipliers 1 count"),
    ),
    (
        "drop 1 row 2 show [1,-1].",
        Err("17 bad multipliers 1 negative"),
    ),
    (
        "drop 1 row 2 show [-1,1].",
        Err("17 bad multipliers 1 negative"),
    ),
    (
        "drop 1 row 2 show [1,2].",
        Err("17 bad multipliers 1 not constant"),
    ),
    (
        "drop 1 row 1 show [1,1].",
        Err("17 bad multipliers 1 wrong sign"),
    ),
    (
        "drop 1 row 2 show [0,0].",
        Err("17 bad multipliers 1 wrong sign"),
    ),
];

#[test]
fn drops(rt: HostRuntime) -> Result<(), Fail> {
    for (at, case) in CASES.iter().enumerate() {
        assert!(rt; is_so(rt.alloc(), PROGRAM, case)?, "case {at}");
    }
    Ok(())
}
