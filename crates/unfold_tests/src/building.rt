//! Start states of programs from texts, and what they print.

use map_replay::{State, Step, open_program, print_program};
use std::alloc::Global;
use term_store::NoMemory;

/// The start state of a text; `None` where there is none.
pub(crate) fn begun(alloc: Global, text: &str) -> Option<State> {
    if text.len() >= 20_000_000 {
        return None;
    }
    open_program(alloc, text.as_bytes()).ok()
}

/// The program of a state.
pub(crate) fn printed(alloc: Global, state: &State) -> Result<String, NoMemory> {
    let mut text = String::new(alloc);
    print_program(alloc, state, &mut text)?;
    Ok(text)
}

/// Whether a history is the unfolding of the first clause at its first atom, and no more.
pub(crate) fn is_one_unfolding(history: &[Step]) -> bool {
    match history.first() {
        Some(Step::Unfold { id, at }) => (*id, *at) == (1, 1) && history.len() == 1,
        _ => false,
    }
}
