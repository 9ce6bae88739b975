//! Steps on the states of a program, both from their texts.

use map_replay::{ReplayFault, State, open_program, print_program, refusal_text, run_script};
use std::alloc::Global;
use term_store::NoMemory;

/// A step, and the program that it makes or the line of its refusal.
pub(crate) type Case = (&'static str, Result<&'static str, &'static str>);

/// A program, the steps of a script that are accepted, the step after them, and what it comes to.
pub(crate) type Run = (
    &'static str,
    &'static str,
    &'static str,
    Result<&'static str, &'static str>,
);

/// The start state of a text; `None` where there is none.
fn begun(alloc: Global, text: &str) -> Option<State> {
    if text.len() >= 1_000_000 {
        return None;
    }
    open_program(alloc, text.as_bytes()).ok()
}

/// Carries out steps: `None` where each is accepted, else the line of the refusal, or that they are no script.
fn carry_out(alloc: Global, state: &mut State, steps: &str) -> Result<Option<String>, NoMemory> {
    let mut script = String::from_str(alloc, "map script 1.\n")?;
    script.push_str(steps)?;
    if script.len() >= 1_000_000 {
        return Ok(Some(String::from_str(alloc, "too long")?));
    }
    match run_script(alloc, state, script.as_bytes()) {
        Ok(()) => Ok(None),
        Err(ReplayFault::Refused(_, refusal)) => {
            let mut line = String::new(alloc);
            refusal_text(alloc, &refusal, &mut line)?;
            Ok(Some(line))
        }
        Err(ReplayFault::NoMemory) => Err(NoMemory),
        Err(_) => Ok(Some(String::from_str(alloc, "bad script")?)),
    }
}

fn printed(alloc: Global, state: &State) -> Result<String, NoMemory> {
    let mut text = String::new(alloc);
    print_program(alloc, state, &mut text)?;
    Ok(text)
}

/// Whether a step is accepted, the program is this one then, and the history has one step more.
fn accepts(alloc: Global, state: &mut State, step: &str, program: &str) -> Result<bool, NoMemory> {
    let before = state.history().len();
    if carry_out(alloc, state, step)?.is_some() {
        return Ok(false);
    }
    Ok(
        printed(alloc, state)?.as_str() == program
            && state.history().len().checked_sub(1) == Some(before),
    )
}

/// The counts of steps, nodes, definitions and steps that are kept, and the next id.
fn counts(state: &State) -> (u32, u32, usize, usize, u32) {
    (
        state.steps(),
        state.nodes(),
        state.defined().len(),
        state.history().len(),
        state.next_id(),
    )
}

/// Whether a step is refused with this line, and the program and all counts are as before.
fn refuses(alloc: Global, state: &mut State, step: &str, refusal: &str) -> Result<bool, NoMemory> {
    let before = printed(alloc, state)?;
    let counted = counts(state);
    let Some(line) = carry_out(alloc, state, step)? else {
        return Ok(false);
    };
    let after = printed(alloc, state)?;
    Ok(line.as_str() == refusal && before.as_str() == after.as_str() && counts(state) == counted)
}

/// Whether a step comes to this on the state after these steps, which are accepted.
pub(crate) fn comes_to(
    alloc: Global,
    program: &str,
    steps: &str,
    step: &str,
    wanted: Result<&str, &str>,
) -> Result<bool, NoMemory> {
    let Some(mut state) = begun(alloc, program) else {
        return Ok(false);
    };
    if carry_out(alloc, &mut state, steps)?.is_some() {
        return Ok(false);
    }
    match wanted {
        Ok(made) => accepts(alloc, &mut state, step, made),
        Err(refusal) => refuses(alloc, &mut state, step, refusal),
    }
}

/// Whether a step on this program comes to this.
pub(crate) fn is_so(alloc: Global, program: &str, case: &Case) -> Result<bool, NoMemory> {
    comes_to(alloc, program, "", case.0, case.1)
}

/// Whether a step after others comes to this.
pub(crate) fn ends_so(alloc: Global, run: &Run) -> Result<bool, NoMemory> {
    comes_to(alloc, run.0, run.1, run.2, run.3)
}
