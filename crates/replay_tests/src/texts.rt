//! Lines of refusals, and replays from texts.

ghost use Rattle.std.specs.Prelude.{◌<◌, ◌^◌, length};

use clp_model::Limit;
use map_replay::{Refusal, ReplayFault, print_program, refusal_text, replay};
use status_lines::fault_line;
use std::alloc::Global;
use std::test::Fail;
use term_store::NoMemory;

const REFUSALS: [(Refusal, &str); 5] = [
    (Refusal::NoAtom(4_294_967_295), "2 no atom 4294967295"),
    (Refusal::TooLarge(Limit::Nodes), "24 too large nodes"),
    (Refusal::TooLarge(Limit::Steps), "24 too large steps"),
    (Refusal::BadWith(0), "14 bad with 0"),
    (Refusal::NoMemory, "25 no memory"),
];

#[test]
fn refusals_have_their_lines(rt: HostRuntime) -> Result<(), Fail> {
    for (refusal, expected) in REFUSALS.iter() {
        let mut text = String::new(rt.alloc());
        refusal_text(rt.alloc(), refusal, &mut text)?;
        assert_eq!(rt; text.as_str(), *expected);
    }
    Ok(())
}

/// A program, a script, and the program that is written, or the line that says why there is none.
static REPLAYS: [(&str, &str, Result<&str, &str>); 7] = [
    (
        "p(X) :- q(X), q(X).",
        "map script 1. merge 1 at 1,2.",
        Ok("p(V1) :- q(V1).\n"),
    ),
    ("", "map script 1.", Ok("")),
    (
        "p(X) :- q(X), q(X).",
        "map script 1. merge 1 at 1,2. merge 2 at 1,2.",
        Err("refused: step 2: 2 no atom 2\n"),
    ),
    (
        "p(X,Y) :- q(X), q(Y).",
        "map script 1. merge 1 at 1,2.",
        Err("refused: step 1: 21 not equal atoms 1 2\n"),
    ),
    // a definition folded by itself
    (
        "p(a).",
        "map script 1. define n(X) :- p(X). fold 2 at [1] by n/1 with [] keep [] show [].",
        Err("refused: step 2: 11 unmarked 2\n"),
    ),
    (
        "p :- X.",
        "map script 2.",
        Err("bad program: byte 5: not an atom\n"),
    ),
    ("p.", "map script 2.", Err("bad script: byte 11: version\n")),
];

fn replayed(alloc: Global, program: &[u8], script: &[u8]) -> Result<String, ReplayFault>
    requires program { length program.now < 2 ^ 32 }
    requires script { length script.now < 2 ^ 32 }
{
    let state = replay(alloc, program, script)?;
    let mut text = String::new(alloc);
    match print_program(alloc, &state, &mut text) {
        Ok(()) => Ok(text),
        Err(NoMemory) => Err(ReplayFault::NoMemory),
    }
}

/// Whether what came is what is wanted.
fn is_wanted(
    alloc: Global,
    found: Result<String, ReplayFault>,
    wanted: Result<&str, &str>,
) -> Result<bool, NoMemory> {
    match (found, wanted) {
        (Ok(text), Ok(program)) => Ok(text.as_str() == program),
        (Err(fault), Err(line)) => Ok(fault_line(alloc, &fault)?.as_str() == line),
        _ => Ok(false),
    }
}

#[test]
fn replays_from_texts(rt: HostRuntime) -> Result<(), Fail> {
    for (program, script, wanted) in REPLAYS.iter() {
        assert!(rt; program.len() < 4096);
        assert!(rt; script.len() < 4096);
        let found = replayed(rt.alloc(), program.as_bytes(), script.as_bytes());
        assert!(rt;
            is_wanted(rt.alloc(), found, *wanted)?,
            "{program} {script}"
        );
    }
    Ok(())
}
