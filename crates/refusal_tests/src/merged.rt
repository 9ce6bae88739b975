//! Merging two atoms.

use crate::stepping::{Case, is_so};
use std::test::Fail;

const PROGRAM: &str = "p(X) :- {X < 3}, q(X,[1]), r, q(X,[1]), q(X,[2]).";

static CASES: [Case; 10] = [
    ("merge 1 at 1,3.", Err("21 not equal atoms 1 3")),
    ("merge 1 at 1,2.", Err("21 not equal atoms 1 2")),
    ("merge 1 at 2,2.", Err("4 repeated position 2")),
    ("merge 1 at 0,9.", Err("2 no atom 0")),
    ("merge 1 at 9,0.", Err("2 no atom 9")),
    ("merge 1 at 1,5.", Err("2 no atom 5")),
    ("merge 1 at 5,5.", Err("2 no atom 5")),
    ("merge 0 at 1,2.", Err("1 no clause 0")),
    ("merge 2 at 1,1.", Err("1 no clause 2")),
    ("merge 4294967295 at 1,1.", Err("1 no clause 4294967295")),
];

/// The same atom with a variable that is a number.
const EQUAL: &str = "p(X) :- {X < 3}, q(X,f(Y)), r, q(X,f(Y)).";

static EQUAL_CASES: [Case; 2] = [
    (
        "merge 1 at 1,3.",
        Ok("p(V1) :- {V1 - 3 < 0}, q(V1,f(V2)), r.\n"),
    ),
    (
        "merge 1 at 3,1.",
        Ok("p(V1) :- {V1 - 3 < 0}, r, q(V1,f(V2)).\n"),
    ),
];

#[test]
fn merges(rt: HostRuntime) -> Result<(), Fail> {
    for (at, case) in CASES.iter().enumerate() {
        assert!(rt; is_so(rt.alloc(), PROGRAM, case)?, "case {at}");
    }
    for (at, case) in EQUAL_CASES.iter().enumerate() {
        assert!(rt; is_so(rt.alloc(), EQUAL, case)?, "equal atoms {at}");
    }
    Ok(())
}
