//! The program of a state, printed.

ghost use Rattle.std.specs.Prelude.{◌≡◌, ◌++◌, OnOk, OnErr, string_bytes};
ghost use Rattle.map_model.specs.State.{entry_at};
ghost use Rattle.map_state.specs.Seen.{state_of};
ghost use Rattle.replay_model.specs.Replay.{output, entry_text};

use clause_printer::print_clause;
use map_state::State;
use std::alloc::Global;
use term_store::NoMemory;

/// Appends the program of a state: its live clauses by rising id, one a line. After an error `into` is as before.
pub fn print_program(alloc: Global, state: &State, into: &mut String) -> Result<(), NoMemory>
    ensures ok { OnOk result (string_bytes into.new ≡ string_bytes into.old ++ output (state_of state.now)) }
    ensures err { OnErr result (string_bytes into.new ≡ string_bytes into.old) }
{
    let mut text = String::new(alloc);
    for id in 1..state.next_id() {
        print_entry(alloc, state, id, &mut text)?;
    }
    into.push_str(text.as_str())?;
    Ok(())
}

/// Appends the clause of this id, if it is live.
fn print_entry(alloc: Global, state: &State, id: u32, into: &mut String) -> Result<(), NoMemory>
    ensures ok { OnOk result (string_bytes into.new ≡ string_bytes into.old ++ entry_text (entry_at (state_of state.now) id)) }
{
    match state.fetch(id) {
        Some(entry) if entry.live => print_clause(alloc, state.store(), &entry.clause, into),
        _ => Ok(()),
    }
}
