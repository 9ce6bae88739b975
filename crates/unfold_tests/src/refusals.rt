//! Unfoldings that are refused: the state is as it was.

ghost use Rattle.map_replay.specs.Sources.{HasFormedSource};

use crate::building::{begun, is_one_unfolding, printed};
use map_replay::{State, Step, apply, refusal_text};
use std::alloc::Global;
use std::test::Fail;
use term_store::NoMemory;

const PROGRAM: &str = "p :- q, r. q.";

/// The clause and the position that are unfolded, and the line of the refusal.
type Case = (u32, u32, &'static str);

static CASES: [Case; 7] = [
    (0, 1, "1 no clause 0"),
    (3, 1, "1 no clause 3"),
    (4_294_967_295, 0, "1 no clause 4294967295"),
    (1, 0, "2 no atom 0"),
    (1, 3, "2 no atom 3"),
    (1, 4_294_967_295, "2 no atom 4294967295"),
    (2, 1, "2 no atom 1"),
];

/// Whether a step is refused with this line.
fn refuses_with(alloc: Global, state: &mut State, step: &Step, line: &str) -> Result<bool, NoMemory>
    requires { HasFormedSource step.now }
{
    let Err(refusal) = apply(state, step) else {
        return Ok(false);
    };
    let mut text = String::new(alloc);
    refusal_text(alloc, &refusal, &mut text)?;
    Ok(text.as_str() == line)
}

/// Whether a step is refused with this line, and the program, the history, the next id and the nodes are as before.
fn is_refused(alloc: Global, state: &mut State, step: &Step, line: &str) -> Result<bool, NoMemory>
    requires { HasFormedSource step.now }
{
    let before = printed(alloc, state)?;
    let counts = (state.steps(), state.next_id(), state.nodes());
    let refused = refuses_with(alloc, state, step, line)?;
    let after = printed(alloc, state)?;
    Ok(
        refused
            && before.as_str() == after.as_str()
            && counts == (state.steps(), state.next_id(), state.nodes()),
    )
}

fn is_so(alloc: Global, case: &Case) -> Result<bool, NoMemory> {
    let (id, at, line) = *case;
    match begun(alloc, PROGRAM) {
        Some(mut state) => Ok(
            is_refused(alloc, &mut state, &Step::Unfold { id, at }, line)?
                && state.history().is_empty(),
        ),
        None => Ok(false),
    }
}

#[test]
fn refuses(rt: HostRuntime) -> Result<(), Fail> {
    for (at, case) in CASES.iter().enumerate() {
        assert!(rt; is_so(rt.alloc(), case)?, "case {at}");
    }
    Ok(())
}

/// Whether a clause that was unfolded is no longer there to unfold, and the history keeps the one step.
fn refuses_dead(alloc: Global) -> Result<bool, NoMemory> {
    let Some(mut state) = begun(alloc, PROGRAM) else {
        return Ok(false);
    };
    let step = Step::Unfold { id: 1, at: 1 };
    let accepted = apply(&mut state, &step).is_ok();
    Ok(
        accepted
            && is_refused(alloc, &mut state, &step, "1 no clause 1")?
            && is_one_unfolding(state.history()),
    )
}

#[test]
fn refuses_a_dead_clause(rt: HostRuntime) -> Result<(), Fail> {
    assert!(rt; refuses_dead(rt.alloc())?);
    Ok(())
}
