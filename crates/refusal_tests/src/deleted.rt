//! Deleting a clause whose rows have no common solution.

use crate::stepping::{Case, is_so};
use itoa::Buffer;
use std::alloc::Global;
use std::test::Fail;
use term_store::NoMemory;

const STRICT: &str = "p(X,Y) :- X < Y, Y =< X. q.";

const WEAK: &str = "p(X,Y) :- X =< Y, Y =< X. q.";

static STRICT_CASES: [Case; 11] = [
    ("delete 1 false show [0,1,1].", Ok("q.\n")),
    ("delete 1 false show [0,7,7].", Ok("q.\n")),
    ("delete 1 false show find.", Ok("q.\n")),
    ("delete 3 false show find.", Err("1 no clause 3")),
    ("delete 2 false show find.", Err("18 satisfiable")),
    (
        "delete 1 false show [0,1,1]/[0,1,1].",
        Err("17 bad multipliers 1 form"),
    ),
    (
        "delete 1 false show [1,1,1].",
        Err("17 bad multipliers 1 form"),
    ),
    (
        "delete 1 false show [0,1].",
        Err("17 bad multipliers 1 count"),
    ),
    (
        "delete 1 false show [0,-1,-1].",
        Err("17 bad multipliers 1 negative"),
    ),
    (
        "delete 1 false show [0,1,2].",
        Err("17 bad multipliers 1 not constant"),
    ),
    (
        "delete 1 false show [0,0,0].",
        Err("17 bad multipliers 1 wrong sign"),
    ),
];

static WEAK_CASES: [Case; 2] = [
    (
        "delete 1 false show [0,1,1].",
        Err("17 bad multipliers 1 wrong sign"),
    ),
    ("delete 1 false show find.", Err("18 satisfiable")),
];

#[test]
fn deletes(rt: HostRuntime) -> Result<(), Fail> {
    for (at, case) in STRICT_CASES.iter().enumerate() {
        assert!(rt; is_so(rt.alloc(), STRICT, case)?, "case {at}");
    }
    for (at, case) in WEAK_CASES.iter().enumerate() {
        assert!(rt; is_so(rt.alloc(), WEAK, case)?, "weak case {at}");
    }
    Ok(())
}

/// A clause in which so many variables are below one and as many are above it.
fn star(alloc: Global, count: u32) -> Result<String, NoMemory> {
    let mut text = String::new(alloc);
    text.push_str("h(Z) :- {num(Z)")?;
    for n in 0..count {
        text.push_str(", Y")?;
        text.push_str(Buffer::new().format(n))?;
        text.push_str(" =< Z")?;
    }
    for n in 0..count {
        text.push_str(", Z =< W")?;
        text.push_str(Buffer::new().format(n))?;
    }
    text.push_str("}.")?;
    Ok(text)
}

fn ends(alloc: Global, count: u32, refusal: &'static str) -> Result<bool, NoMemory> {
    is_so(
        alloc,
        star(alloc, count)?.as_str(),
        &("delete 1 false show find.", Err(refusal)),
    )
}

#[test]
fn the_finder_stops_at_its_limit(rt: HostRuntime) -> Result<(), Fail> {
    assert!(rt; ends(rt.alloc(), 32, "18 satisfiable")?);
    assert!(rt; ends(rt.alloc(), 33, "24 too large chain")?);
    Ok(())
}
