//! What runs of scripts over programs write.

ghost use Rattle.std.specs.Prelude.{◌<◌, ◌^◌, length};

use map_replay::{ReplayFault, State, open_program, print_program, refusal_text, run_script};
use std::alloc::Global;
use std::test::Fail;
use term_store::NoMemory;

/// Appends the program written after a script, or what the script was refused by and the program then.
fn append_run(
    alloc: Global,
    state: &mut State,
    script: &[u8],
    text: &mut String,
) -> Result<(), NoMemory>
    requires { length script.now < 2 ^ 32 }
{
    match run_script(alloc, state, script) {
        Ok(()) => print_program(alloc, state, text),
        Err(ReplayFault::NoMemory) => Err(NoMemory),
        Err(ReplayFault::Refused(_, refusal)) => {
            refusal_text(alloc, &refusal, text)?;
            text.push_str(" after\n")?;
            print_program(alloc, state, text)
        }
        Err(_) => Ok(text.push_str("bad script")?),
    }
}

/// Appends what becomes of a script on a program.
fn append_answer(
    alloc: Global,
    program: &[u8],
    script: &[u8],
    text: &mut String,
) -> Result<(), NoMemory>
    requires program { length program.now < 2 ^ 32 }
    requires script { length script.now < 2 ^ 32 }
{
    match open_program(alloc, program) {
        Ok(mut state) => append_run(alloc, &mut state, script, text),
        Err(ReplayFault::NoMemory) => Err(NoMemory),
        Err(_fault) => Ok(text.push_str("bad program")?),
    }
}

fn answer(alloc: Global, program: &[u8], steps: &str) -> Result<String, NoMemory>
    requires program { length program.now < 2 ^ 32 }
    requires steps { length steps.now < 4096 }
{
    let mut script = String::from_str(alloc, "map script 1.\n")?;
    script.push_str(steps)?;
    let mut text = String::new(alloc);
    append_answer(alloc, program, script.as_bytes(), &mut text)?;
    Ok(text)
}

/// A program, the steps of a script, and the answer.
static ANSWERS: [(&str, &str, &str); 19] = [
    ("", "", ""),
    (
        "p(X) :- q(X), q(X).",
        "merge 1 at 1,2.",
        "p(V1) :- q(V1).\n",
    ),
    ("p :- q, q. r.", "merge 1 at 2,1.", "r.\np :- q.\n"),
    // Variables are numbered by first occurrence in what is left.
    (
        "p(X) :- q(Y), r(X,Y), q(Y).",
        "merge 1 at 3,1.",
        "p(V1) :- r(V1,V2), q(V2).\n",
    ),
    (
        "p :- q(X,Y), r(Y), q(X,Y).",
        "merge 1 at 1,3.",
        "p :- q(V1,V2), r(V2).\n",
    ),
    (
        "p :- q(X,Y), r(Y), q(X,Y).",
        "merge 1 at 3,1.",
        "p :- r(V1), q(V2,V1).\n",
    ),
    (
        "p(X) :- q(Y,f(Z)), r(Z,X), s(W), q(Y,f(Z)).",
        "merge 1 at 4,1.",
        "p(V1) :- r(V2,V1), s(V3), q(V4,f(V2)).\n",
    ),
    (
        "p :- q(X,Y), r(Y), q(X,Y), r(Y).",
        "merge 1 at 3,1. merge 2 at 1,3.",
        "p :- r(V1), q(V2,V1).\n",
    ),
    (
        "p :- q, q.",
        "merge 1 at 1,2. merge 1 at 1,2.",
        "1 no clause 1 after\np :- q.\n",
    ),
    (
        "p :- q, q.",
        "merge 0 at 1,2.",
        "1 no clause 0 after\np :- q, q.\n",
    ),
    (
        "p :- q, q.",
        "merge 1 at 3,0.",
        "2 no atom 3 after\np :- q, q.\n",
    ),
    (
        "p :- q, q.",
        "merge 1 at 1,0.",
        "2 no atom 0 after\np :- q, q.\n",
    ),
    (
        "p :- q, q.",
        "merge 1 at 2,2.",
        "4 repeated position 2 after\np :- q, q.\n",
    ),
    (
        "p(X,Y) :- q(X), q(Y).",
        "merge 1 at 1,2.",
        "21 not equal atoms 1 2 after\np(V1,V2) :- q(V1), q(V2).\n",
    ),
    (
        "p(X) :- q(f(X)), q(X).",
        "merge 1 at 1,2.",
        "21 not equal atoms 1 2 after\np(V1) :- q(f(V1)), q(V1).\n",
    ),
    (
        "p :- q(_), q(_).",
        "merge 1 at 2,1.",
        "21 not equal atoms 2 1 after\np :- q(V1), q(V2).\n",
    ),
    (
        "p :- q, r.",
        "merge 1 at 1,2.",
        "21 not equal atoms 1 2 after\np :- q, r.\n",
    ),
    ("p :- X.", "merge 1 at 1,2.", "bad program"),
    ("p.", "merge 1 at 1.", "bad script"),
];

#[test]
fn answers(rt: HostRuntime) -> Result<(), Fail> {
    for (program, steps, expected) in ANSWERS.iter() {
        assert!(rt; program.len() < 4096);
        assert!(rt; steps.len() < 4096);
        let found = answer(rt.alloc(), program.as_bytes(), steps)?;
        assert_eq!(rt; found.as_str(), *expected, "{program} {steps}");
    }
    Ok(())
}
