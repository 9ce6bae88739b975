ghost use Rattle.std.specs.Prelude.{◌<◌, ◌^◌, length};

use crate::answers::whole;
use clause_core::Limit;
use clp_syntax::{LoadFault, TextError, load, read_program};
use std::alloc::{AllocError, Global};
use std::test::Fail;

/// A clause, a line: its first words, a piece this many times, the words between, another piece as often, and the last
/// words.
fn clause_text(alloc: Global, parts: [&str; 5], times: usize) -> Result<String, AllocError> {
    let [first, opening, between, closing, last] = parts;
    whole(
        alloc,
        &[
            (first, 1),
            (opening, times),
            (between, 1),
            (closing, times),
            (last, 1),
            ("\n", 1),
        ],
    )
}

/// The number of clauses, the parts of each, and the predicates, or the first clause that is refused and the limit that is
/// past.
type Case = (usize, [&'static str; 5], usize, Result<usize, (u32, Limit)>);

static CASES: [Case; 16] = [
    (3, ["p.", "", "", "", ""], 0, Ok(1)),
    // Body atoms.
    (1, ["p :- q", ", q", ".", "", ""], 63, Ok(2)),
    (
        1,
        ["p :- q", ", q", ".", "", ""],
        64,
        Err((1, Limit::Atoms)),
    ),
    // Nodes of a clause, in the head alone and in all atoms.
    (1, ["p(a", ",a", ").", "", ""], 4094, Ok(1)),
    (1, ["p(a", ",a", ").", "", ""], 4095, Err((1, Limit::Shape))),
    (1, ["p :- q, q(a", ",a", ").", "", ""], 4092, Ok(3)),
    (
        1,
        ["p :- q, q(a", ",a", ").", "", ""],
        4093,
        Err((1, Limit::Shape)),
    ),
    // Depth.
    (1, ["p(", "f(", "X", ")", ")."], 254, Ok(1)),
    (1, ["p(", "f(", "X", ")", ")."], 255, Err((1, Limit::Shape))),
    (1, ["p :- q(", "f(", "a", ")", "), q."], 254, Ok(3)),
    (
        1,
        ["p :- q(", "f(", "a", ")", "), q."],
        255,
        Err((1, Limit::Shape)),
    ),
    // Variables.
    (1, ["p(X,_", ",_", ") :- q(X).", "", ""], 254, Ok(2)),
    (
        1,
        ["p(X,_", ",_", ") :- q(X).", "", ""],
        255,
        Err((1, Limit::Variables)),
    ),
    // The shape comes before the atoms.
    (
        1,
        ["p :- q", ", q", "(_", ",_", ")."],
        2048,
        Err((1, Limit::Shape)),
    ),
    // Nodes of all clauses.
    (2048, ["p(X", ",X", ").", "", ""], 4094, Ok(1)),
    (
        2049,
        ["p(X", ",X", ").", "", ""],
        4094,
        Err((2049, Limit::Nodes)),
    ),
];

/// So many clauses.
fn clauses_text(alloc: Global, case: &Case) -> Result<String, AllocError> {
    let (count, parts, times, _) = *case;
    let clause = clause_text(alloc, parts, times)?;
    clause.as_str().repeat(alloc, count)
}

/// Whether a text loads as so many clauses with so many predicates, or is past this limit at this clause.
fn loads_so(alloc: Global, text: &[u8], case: &Case) -> Result<bool, TextError>
    requires { length text.now < 2 ^ 32 }
{
    let (count, _, _, wanted) = *case;
    let source = read_program(alloc, text)?;
    match load(alloc, source.as_slice()) {
        Ok(loaded) => Ok(loaded.clauses.len() == count && wanted == Ok(loaded.preds.len())),
        Err(LoadFault::TooLarge(place, limit)) => Ok(wanted == Err((place, limit))),
        Err(LoadFault::Overflow(_)) => Ok(false),
        Err(LoadFault::NoMemory) => Err(TextError::NoMemory),
    }
}

#[test]
fn loads_up_to_the_limits(rt: HostRuntime) -> Result<(), Fail> {
    for (at, case) in CASES.iter().enumerate() {
        let text = clauses_text(rt.alloc(), case)?;
        assert!(rt; text.len() < 20_000_000);
        assert!(rt; loads_so(rt.alloc(), text.as_bytes(), case)?, "case {at}");
    }
    Ok(())
}

/// The parts of a text, how often the pieces stand, and how many clauses it has, if it is a program.
static TEXTS: [([&str; 5], usize, Option<usize>); 8] = [
    (["", "f(", "X", ")", "."], 256, Some(1)),
    (["", "f(", "X", ")", "."], 257, None),
    (["", "n", "", "", "."], 255, Some(1)),
    (["", "n", "", "", "."], 256, None),
    (["n(", "V", ").", "", ""], 255, Some(1)),
    (["n(", "V", ").", "", ""], 256, None),
    (["n", ". n", "", "", "."], 4095, Some(4096)),
    (["n", ". n", "", "", "."], 4096, None),
];

/// Whether a text is a program of so many clauses, or is none.
fn reads_so(alloc: Global, text: &[u8], wanted: Option<usize>) -> Result<bool, AllocError>
    requires { length text.now < 2 ^ 32 }
{
    match read_program(alloc, text) {
        Ok(source) => Ok(wanted == Some(source.len())),
        Err(TextError::Fault(_)) => Ok(wanted.is_none()),
        Err(TextError::NoMemory) => Err(AllocError),
    }
}

#[test]
fn reads_up_to_the_limits(rt: HostRuntime) -> Result<(), Fail> {
    for (at, case) in TEXTS.iter().enumerate() {
        let (parts, times, wanted) = *case;
        let text = clause_text(rt.alloc(), parts, times)?;
        assert!(rt; text.len() < 20_000_000);
        assert!(rt; reads_so(rt.alloc(), text.as_bytes(), wanted)?, "case {at}");
    }
    Ok(())
}
