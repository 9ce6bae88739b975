//! Runs whose clauses have together as many nodes as they may have, and more.

use crate::answers::{answer, whole};
use itoa::Buffer;
use map_main::{NoMemory, Status};
use std::alloc::{AllocError, Global};
use std::test::Fail;

/// How many clauses have 64 equal atoms.
const MERGED_CLAUSES: u32 = 65;

/// A comma, and an atom of size 63.
fn other_atom(alloc: Global) -> Result<String, AllocError> {
    whole(alloc, &[(", q(a", 1), (",a", 61), (")", 1)])
}

/// A clause with 64 such atoms.
fn clause(alloc: Global) -> Result<String, AllocError> {
    let other = other_atom(alloc)?;
    whole(
        alloc,
        &[
            ("p :- q(a", 1),
            (",a", 61),
            (")", 1),
            (other.as_str(), 63),
            (".\n", 1),
        ],
    )
}

/// These clauses, of size 1 + 64 * 63 each, and a fact of size 2 + `more`.
fn program(alloc: Global, more: usize) -> Result<String, AllocError> {
    let clause = clause(alloc)?;
    whole(
        alloc,
        &[
            (clause.as_str(), MERGED_CLAUSES as usize),
            ("r(a", 1),
            (",a", more),
            (").\n", 1),
        ],
    )
}

/// Appends a step that merges the first two atoms of the clause with this id.
fn push_merge(text: &mut String, id: u32) -> Result<(), AllocError> {
    text.push_str("merge ")?;
    text.push_str(Buffer::new().format(id))?;
    text.push_str(" at 1,2.\n")
}

/// So many steps, each of which merges the first two atoms of the next clause: those of the program, and then those
/// that steps have made.
fn script(alloc: Global, steps: u32) -> Result<String, AllocError> {
    let mut text = String::from_str(alloc, "map script 1.\n")?;
    for step in 1..=steps {
        let id = if step > MERGED_CLAUSES {
            step.saturating_add(1)
        } else {
            step
        };
        push_merge(&mut text, id)?;
    }
    Ok(text)
}

/// How many arguments but one a fact has, a number of steps, and the line of the refused one, if there is one.
type Run = (usize, u32, &'static str);

/// Loaded, the clauses have 65 * 4,033 nodes. Each of the first 65 steps makes a clause of 1 + 63 * 63 nodes, the next
/// 65 one of 1 + 63 * 62, and so on: 55 rounds and 29 steps of the next bring all to 8,388,465, and a fact of 143 nodes
/// to the limit of 8,388,608.
static RUNS: [Run; 3] = [
    (141, 3604, ""),
    (141, 3605, "refused: step 3605: 24 too large nodes\n"),
    (142, 3604, "refused: step 3604: 24 too large nodes\n"),
];

/// Whether a status and what was written tell of this refused step, or of none.
fn tells_refusal(found: &(Status, Vec<u8>), line: &str) -> bool {
    if line.is_empty() {
        found.0 == Status::Ok
    } else {
        found.0 == Status::Refused && found.1.as_slice() == line.as_bytes()
    }
}

/// Whether a run ends so.
fn ends_so(alloc: Global, run: &Run) -> Result<bool, NoMemory> {
    let (more, steps, line) = *run;
    let program = program(alloc, more)?;
    let script = script(alloc, steps)?;
    let found = answer(alloc, program.as_bytes(), script.as_bytes())?;
    Ok(tells_refusal(&found, line))
}

#[test]
fn nodes_of_a_run(rt: HostRuntime) -> Result<(), Fail> {
    for run in RUNS.iter() {
        let (more, steps, _) = *run;
        assert!(rt; ends_so(rt.alloc(), run)?, "{more} {steps}");
    }
    Ok(())
}
