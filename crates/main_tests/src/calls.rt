//! What the top call answers over the outside in memory.

use map_main::{MemShelf, MemSink, MemSource, Status, Words, map_run};
use std::alloc::{AllocError, Global};

const PROGRAM: &str = "p(X) :- q(X), q(X).\n";

const SCRIPT: &str = "map script 1.\nmerge 1 at 1,2.\n";

const OUTPUT: &str = "p(V1) :- q(V1).\n";

const USAGE: &str = "usage: map replay P S | fill P S\n";

const BAD_PROGRAM: &str = "bad program: byte 1: unexpected end\n";

const LONG_PROGRAM: &str = "bad program: longer than 1048576 bytes\n";

const LONG_SCRIPT: &str = "bad script: longer than 16777216 bytes\n";

/// The status of a call, the name of the last failed load, and the text that was written.
#[derive(Drop)]
pub(crate) struct Outcome {
    status: Status,
    failed: String,
    written: Vec<u8>,
}

/// The call of these words, which stand between spaces, on files P and S. The load and the write of
/// these numbers fail, and the sink takes at most `most` bytes at once.
pub(crate) fn call(
    alloc: Global,
    words: &str,
    files: Vec<(String, Vec<u8>)>,
    load_fails: u32,
    most: usize,
    write_fails: u32,
) -> Result<Outcome, AllocError> {
    let mut all = Words::new(alloc);
    for word in words.split(' ') {
        if all.push(word).is_err() {
            return Err(AllocError);
        }
    }
    let mut shelf = MemShelf::new(files, vec![in alloc; load_fails]?);
    let mut input = MemSource::new(Vec::new(alloc), 1, Vec::new(alloc));
    let mut out = MemSink::new(Vec::new(alloc), most.max(1), vec![in alloc; write_fails]?);
    let status = map_run(alloc, &all, &mut shelf, &mut input, &mut out);
    Ok(Outcome {
        status,
        failed: shelf.failed,
        written: out.taken,
    })
}

/// Puts a file last.
fn push_file(
    alloc: Global,
    files: &mut Vec<(String, Vec<u8>)>,
    name: &str,
    bytes: &[u8],
) -> Result<(), AllocError> {
    let name = String::from_str(alloc, name)?;
    let bytes = Vec::from_slice(alloc, bytes)?;
    files.push((name, bytes))?;
    Ok(())
}

/// Files P and S, where they are there.
pub(crate) fn files(
    alloc: Global,
    program: Option<&[u8]>,
    script: Option<&[u8]>,
) -> Result<Vec<(String, Vec<u8>)>, AllocError> {
    let mut files = Vec::new(alloc);
    if let Some(bytes) = program {
        push_file(alloc, &mut files, "P", bytes)?;
    }
    if let Some(bytes) = script {
        push_file(alloc, &mut files, "S", bytes)?;
    }
    Ok(files)
}

/// The text, and then white up to this length.
fn padded(alloc: Global, text: &str, length: usize) -> Result<Vec<u8>, AllocError> {
    let white = vec![in alloc; b' '; length.saturating_sub(text.len())]?;
    let mut bytes = Vec::from_slice(alloc, text.as_bytes())?;
    bytes.extend_from_slice(white.as_slice())?;
    Ok(bytes)
}

/// Whether a call has ended with this status, and this text was written.
pub(crate) fn is_answer(outcome: &Outcome, status: Status, written: &str) -> bool {
    outcome.status == status && outcome.written.as_slice() == written.as_bytes()
}

/// Words between spaces, and the status and text that they must have where P and S are good.
type Call = (&'static str, Status, &'static str);

static CALLS: [Call; 20] = [
    ("map replay P S", Status::Ok, OUTPUT),
    ("/bin/map replay P S", Status::Ok, OUTPUT),
    (" replay P S", Status::Ok, OUTPUT),
    ("", Status::Usage, USAGE),
    ("map", Status::Usage, USAGE),
    ("map replay", Status::Usage, USAGE),
    ("map replay P", Status::Usage, USAGE),
    ("map replay P S S", Status::Usage, USAGE),
    ("replay P S", Status::Usage, USAGE),
    ("replay map P S", Status::Usage, USAGE),
    ("map Replay P S", Status::Usage, USAGE),
    ("map replays P S", Status::Usage, USAGE),
    ("map replay  S", Status::ShelfFault, ""),
    (
        "map replay P P",
        Status::BadScript,
        "bad script: byte 0: no version\n",
    ),
    (
        "map replay S S",
        Status::BadProgram,
        "bad program: byte 4: unexpected\n",
    ),
    ("map fill P S", Status::Ok, SCRIPT),
    ("map fill P", Status::Usage, USAGE),
    ("map Fill P S", Status::Usage, USAGE),
    (
        "map fill P P",
        Status::BadScript,
        "bad script: byte 0: no version\n",
    ),
    (
        "map fill S S",
        Status::BadProgram,
        "bad program: byte 4: unexpected\n",
    ),
];

fn is_answered(alloc: Global, wanted: &Call) -> Result<bool, AllocError> {
    let (words, status, written) = *wanted;
    let files = files(alloc, Some(PROGRAM.as_bytes()), Some(SCRIPT.as_bytes()))?;
    let outcome = call(alloc, words, files, 0, 1, 0)?;
    Ok(is_answer(&outcome, status, written))
}

#[test]
fn words_of_calls(rt: HostRuntime) -> Result<(), AllocError> {
    for wanted in CALLS.iter() {
        let (words, _, _) = *wanted;
        assert!(rt; is_answered(rt.alloc(), wanted)?, "{words}");
    }
    Ok(())
}

/// Whether a call without any word writes the usage, loads no file and reads nothing.
fn asks_for_words(alloc: Global) -> bool {
    let mut shelf = MemShelf::new(Vec::new(alloc), Vec::new(alloc));
    let mut input = MemSource::new(Vec::new(alloc), 1, Vec::new(alloc));
    let mut out = MemSink::new(Vec::new(alloc), 9, Vec::new(alloc));
    let status = map_run(alloc, &Words::new(alloc), &mut shelf, &mut input, &mut out);
    status == Status::Usage
        && out.taken.as_slice() == USAGE.as_bytes()
        && shelf.calls == 0
        && input.calls == 0
}

#[test]
fn no_words(rt: HostRuntime) -> Result<(), AllocError> {
    assert!(rt; asks_for_words(rt.alloc()));
    Ok(())
}

/// Files P and S, where they are there; the numbers of the load and of the write that fail, 0 for
/// none; the status, the name of the last failed load, and the text that is written.
type Case = (
    Option<&'static str>,
    Option<&'static str>,
    u32,
    u32,
    Status,
    &'static str,
    &'static str,
);

static CASES: [Case; 39] = [
    // The output.
    (Some(PROGRAM), Some(SCRIPT), 0, 0, Status::Ok, "", OUTPUT),
    (Some(""), Some("map script 1."), 0, 0, Status::Ok, "", ""),
    (
        Some("p.\nq :- p."),
        Some("map script 1."),
        0,
        0,
        Status::Ok,
        "",
        "p.\nq :- p.\n",
    ),
    (
        Some("p :- q, q. r."),
        Some("map script 1. merge 1 at 2,1."),
        0,
        0,
        Status::Ok,
        "",
        "r.\np :- q.\n",
    ),
    (
        Some("p(X) :- q(X), r, q(X), r."),
        Some("map script 1. merge 1 at 1,3. merge 2 at 2,3."),
        0,
        0,
        Status::Ok,
        "",
        "p(V1) :- q(V1), r.\n",
    ),
    // A bad program or script.
    (
        Some("p"),
        Some(SCRIPT),
        0,
        0,
        Status::BadProgram,
        "",
        BAD_PROGRAM,
    ),
    (
        Some("p(X :- q."),
        Some(""),
        0,
        0,
        Status::BadProgram,
        "",
        "bad program: byte 4: unexpected\n",
    ),
    (
        Some("true."),
        Some(SCRIPT),
        0,
        0,
        Status::BadProgram,
        "",
        "bad program: byte 0: reserved\n",
    ),
    (
        Some("p :- X."),
        Some("map script 2."),
        0,
        0,
        Status::BadProgram,
        "",
        "bad program: byte 5: not an atom\n",
    ),
    (
        Some(PROGRAM),
        Some(""),
        0,
        0,
        Status::BadScript,
        "",
        "bad script: byte 0: unexpected end\n",
    ),
    (
        Some(PROGRAM),
        Some("merge 1 at 1,2."),
        0,
        0,
        Status::BadScript,
        "",
        "bad script: byte 0: no version\n",
    ),
    (
        Some(PROGRAM),
        Some("map script 2."),
        0,
        0,
        Status::BadScript,
        "",
        "bad script: byte 11: version\n",
    ),
    (
        Some(PROGRAM),
        Some("map script 1. merge 7 at 1,2. merge 1 at 1"),
        0,
        0,
        Status::BadScript,
        "",
        "bad script: byte 42: unexpected end\n",
    ),
    // A refused step.
    (
        Some(PROGRAM),
        Some("map script 1. merge 2 at 1,2."),
        0,
        0,
        Status::Refused,
        "",
        "refused: step 1: 1 no clause 2\n",
    ),
    (
        Some(PROGRAM),
        Some("map script 1. merge 1 at 3,4."),
        0,
        0,
        Status::Refused,
        "",
        "refused: step 1: 2 no atom 3\n",
    ),
    (
        Some(PROGRAM),
        Some("map script 1. merge 1 at 2,0."),
        0,
        0,
        Status::Refused,
        "",
        "refused: step 1: 2 no atom 0\n",
    ),
    (
        Some(PROGRAM),
        Some("map script 1. merge 1 at 2,2."),
        0,
        0,
        Status::Refused,
        "",
        "refused: step 1: 4 repeated position 2\n",
    ),
    (
        Some("p(X,Y) :- q(X), q(Y).\n"),
        Some(SCRIPT),
        0,
        0,
        Status::Refused,
        "",
        "refused: step 1: 21 not equal atoms 1 2\n",
    ),
    (
        Some("p(X) :- q(X), r, q(X), r."),
        Some("map script 1. merge 1 at 2,1."),
        0,
        0,
        Status::Refused,
        "",
        "refused: step 1: 21 not equal atoms 2 1\n",
    ),
    (
        Some(PROGRAM),
        Some("map script 1. merge 1 at 1,2. merge 1 at 1,2. merge 9 at 1,2."),
        0,
        0,
        Status::Refused,
        "",
        "refused: step 2: 1 no clause 1\n",
    ),
    // A failing object: each of its first calls.
    (
        Some(PROGRAM),
        Some(SCRIPT),
        1,
        0,
        Status::ShelfFault,
        "P",
        "",
    ),
    (
        Some(PROGRAM),
        Some(SCRIPT),
        2,
        0,
        Status::ShelfFault,
        "S",
        "",
    ),
    (Some(PROGRAM), Some(SCRIPT), 3, 0, Status::Ok, "", OUTPUT),
    (Some(PROGRAM), Some(SCRIPT), 0, 1, Status::SinkFault, "", ""),
    (
        Some(PROGRAM),
        Some(SCRIPT),
        0,
        2,
        Status::SinkFault,
        "",
        "p(V1",
    ),
    (
        Some(PROGRAM),
        Some(SCRIPT),
        0,
        4,
        Status::SinkFault,
        "",
        "p(V1) :- q(V",
    ),
    (Some(PROGRAM), Some(SCRIPT), 0, 5, Status::Ok, "", OUTPUT),
    (
        Some(PROGRAM),
        Some("map script 1. merge 2 at 1,2."),
        0,
        3,
        Status::SinkFault,
        "",
        "refused:",
    ),
    // A file that is not there.
    (None, Some(SCRIPT), 0, 0, Status::ShelfFault, "P", ""),
    (Some(PROGRAM), None, 0, 0, Status::ShelfFault, "S", ""),
    // Neighbours in the order of the answers, both with cause.
    (None, None, 0, 1, Status::ShelfFault, "P", ""),
    (None, Some("p"), 0, 1, Status::ShelfFault, "P", ""),
    (Some("p"), None, 0, 0, Status::BadProgram, "", BAD_PROGRAM),
    (Some("p"), Some(SCRIPT), 2, 1, Status::SinkFault, "", ""),
    (Some("p"), Some("p"), 2, 2, Status::SinkFault, "", "bad "),
    (Some(PROGRAM), Some("p"), 2, 1, Status::ShelfFault, "S", ""),
    (
        Some(PROGRAM),
        Some("p"),
        0,
        2,
        Status::SinkFault,
        "",
        "bad ",
    ),
    (
        Some(PROGRAM),
        Some("map script 1. merge 2 at 1,2."),
        0,
        1,
        Status::SinkFault,
        "",
        "",
    ),
    (Some(PROGRAM), None, 0, 1, Status::ShelfFault, "S", ""),
];

fn ends_so(alloc: Global, case: &Case) -> Result<bool, AllocError> {
    let (program, script, load_fails, write_fails, status, failed, written) = *case;
    let files = files(alloc, program.map(str::as_bytes), script.map(str::as_bytes))?;
    let outcome = call(alloc, "map replay P S", files, load_fails, 4, write_fails)?;
    Ok(is_answer(&outcome, status, written) && outcome.failed.as_str() == failed)
}

#[test]
fn files_and_faults(rt: HostRuntime) -> Result<(), AllocError> {
    for (at, case) in CASES.iter().enumerate() {
        assert!(rt; ends_so(rt.alloc(), case)?, "case {at}");
    }
    Ok(())
}

/// A program, a script, and what `fill` answers.
type Filling = (&'static str, &'static str, Status, &'static str);

static FILLINGS: [Filling; 7] = [
    (
        PROGRAM,
        "map script 1. % no step\n",
        Status::Ok,
        "map script 1.\n",
    ),
    (
        PROGRAM,
        "map script 1. merge 01 at 1 , 2 .",
        Status::Ok,
        SCRIPT,
    ),
    (
        "p(X) :- X < 1, X < 2.",
        "map script 1. drop 1 row 2 show find.",
        Status::Ok,
        "map script 1.\ndrop 1 row 2 show [1,1].\n",
    ),
    (
        "p(X,Y) :- X < Y, Y =< X.",
        "map script 1. delete 1 false show find.",
        Status::Ok,
        "map script 1.\ndelete 1 false show [0,1,1].\n",
    ),
    (
        "p(X,Y) :- X < Y, Y =< X.",
        "map script 1. delete 1 false show [0,2,2].",
        Status::Ok,
        "map script 1.\ndelete 1 false show [0,2,2].\n",
    ),
    (
        "p(X,Y) :- X =< Y, Y =< X.",
        "map script 1. delete 1 false show find.",
        Status::Refused,
        "refused: step 1: 18 satisfiable\n",
    ),
    (
        PROGRAM,
        "map script 1. merge 1 at 1.",
        Status::BadScript,
        "bad script: byte 26: unexpected\n",
    ),
];

fn fills_so(alloc: Global, case: &Filling) -> Result<bool, AllocError> {
    let (program, script, status, written) = *case;
    let files = files(alloc, Some(program.as_bytes()), Some(script.as_bytes()))?;
    let outcome = call(alloc, "map fill P S", files, 0, 4, 0)?;
    Ok(is_answer(&outcome, status, written))
}

#[test]
fn filled_scripts(rt: HostRuntime) -> Result<(), AllocError> {
    for (at, case) in FILLINGS.iter().enumerate() {
        assert!(rt; fills_so(rt.alloc(), case)?, "case {at}");
    }
    Ok(())
}

/// Lengths of P and of S, each filled up with white, 0 where there is no S; and the answer.
type LongCase = (usize, usize, Status, &'static str);

static LENGTHS: [LongCase; 5] = [
    (1_048_576, 16_777_216, Status::Ok, OUTPUT),
    (1_048_577, 99, Status::BadProgram, LONG_PROGRAM),
    (1_048_577, 16_777_217, Status::BadProgram, LONG_PROGRAM),
    (1_048_577, 0, Status::BadProgram, LONG_PROGRAM),
    (99, 16_777_217, Status::BadScript, LONG_SCRIPT),
];

/// Files P and S of these lengths.
fn padded_files(
    alloc: Global,
    program: usize,
    script: usize,
) -> Result<Vec<(String, Vec<u8>)>, AllocError> {
    let program = padded(alloc, PROGRAM, program)?;
    if script == 0 {
        return files(alloc, Some(program.as_slice()), None);
    }
    let script = padded(alloc, SCRIPT, script)?;
    files(alloc, Some(program.as_slice()), Some(script.as_slice()))
}

fn long_ends_so(alloc: Global, case: &LongCase) -> Result<bool, AllocError> {
    let (program, script, status, written) = *case;
    let files = padded_files(alloc, program, script)?;
    let outcome = call(alloc, "map replay P S", files, 0, 4096, 0)?;
    Ok(is_answer(&outcome, status, written))
}

#[test]
fn long_files(rt: HostRuntime) -> Result<(), AllocError> {
    for case in LENGTHS.iter() {
        let (program, script, _, _) = *case;
        assert!(rt; long_ends_so(rt.alloc(), case)?, "{program} {script}");
    }
    Ok(())
}
