//! The top call.

ghost use Rattle.std.specs.Prelude.{◌≡◌, ◌≢◌, ◌⊎◌, ℕ, List, Option, true, false, None, Some, IfOk, string_bytes};
ghost use Rattle.std.specs.Io.KnownBytes.{append_known};
ghost use Rattle.replay_model.specs.Replay.{output};
ghost use Rattle.map_state.specs.Seen.{state_of};
ghost use Rattle.map_base.specs.Outside.{Files, Rose};
ghost use Rattle.command_model.specs.Command.{command_of, Replay as replay_of, Fill as fill_of};
ghost use Rattle.status_lines.specs.Lines.{fault_line as right_line};
ghost use Rattle.command_model.specs.Lines.{fault_status as right_status};
ghost use Rattle.command_model.specs.Plan.{Plan, filled, script_on_program, plan};
ghost use Rattle.command_model.specs.Causes.{LeadsTo, Awaits, WritesBeginning, is_said};
ghost use Rattle.command_model.specs.Answers.{right_answer, Writes};
ghost use Rattle.map_main.specs.Headline.{KeepsProvabilityOnFiles, FillsScriptOnFiles};
ghost use Rattle.map_main.specs.Endings.{Stops, IsWritten, Ends};

use super::command::{Command, TwoFiles};
use super::replaying::{Stop, last_state};
use super::words::Words;
use super::writing::put;
use command_model::Status;
use map_base::{Shelf, Sink, SinkFault, Source};
use map_replay::{ReplayFault, State, print_program};
use script_text::print_script;
use status_lines::{fault_line, long_program_line, long_script_line};
use std::alloc::Global;

/// Does what the words say with files of the shelf, writes the output or one line to `out`, and
/// says how it ended. The input is not read.
///
/// `replay P S` after the program's name writes the program that the script file S makes of the
/// program file P, one clause a line. `fill P S` writes the script with all certificates written out.
pub fn map_run<H: Shelf, I: Source, O: Sink>(
    alloc: Global,
    words: &Words,
    shelf: &mut H,
    input: &mut I,
    out: &mut O,
) -> Status
    requires { I.ended input.old ≡ false }
    // What is written is the text to which the plan of the words leads, with its status.
    ensures said { is_said result ≡ true → (text : List ℕ)
        × LeadsTo (H.files shelf.old) (plan words.now) result text
        × (O.taken out.new ≡ append_known (O.taken out.old) text) }
    // What `replay` writes keeps what is provable, and what `fill` writes is a script to the same end.
    ensures headline { result ≡ Status.Ok → (program script : List ℕ)
        → command_of words.now ≡ Some (replay_of program script) → (files : Files) (before : List ℕ)
        → H.files shelf.old ≡ Some files → O.taken out.old ≡ Some before
        → KeepsProvabilityOnFiles program script files before (O.taken out.new) }
    ensures filled { result ≡ Status.Ok → (program script : List ℕ)
        → command_of words.now ≡ Some (fill_of program script) → (files : Files) (before : List ℕ)
        → H.files shelf.old ≡ Some files → O.taken out.old ≡ Some before
        → FillsScriptOnFiles program script files before (O.taken out.new) }
    // Faults come only from outside, and want of memory is free.
    ensures shelf_fault { result ≡ Status.ShelfFault → Rose (H.faults shelf.old) (H.faults shelf.new)
        × Awaits (H.files shelf.old) (plan words.now) (H.failed shelf.new)
        × (O.taken out.new ≡ O.taken out.old) }
    ensures sink_fault { result ≡ Status.SinkFault → Rose (O.faults out.old) (O.faults out.new)
        × WritesBeginning (H.files shelf.old) (plan words.now) (O.taken out.old) (O.taken out.new) }
    ensures no_memory { result ≡ Status.NoMemory → (O.taken out.new ≡ O.taken out.old)
        ⊎ WritesBeginning (H.files shelf.old) (plan words.now) (O.taken out.old) (O.taken out.new) }
    ensures never { (result ≢ Status.InputFault) × (result ≢ Status.BudgetSpent) }
    ensures unread { input.new ≡ input.old }
    ensures keeps { H.files shelf.new ≡ H.files shelf.old }
    ensures shelf_quiet { result ≢ Status.ShelfFault → H.faults shelf.new ≡ H.faults shelf.old }
    ensures sink_quiet { result ≢ Status.SinkFault → O.faults out.new ≡ O.faults out.old }
    // Where nothing outside fails, the right answer comes.
    ensures no_command { command_of words.now ≡ None → ¬ Rose (O.faults out.old) (O.faults out.new)
        → (result ≡ Status.Usage) ⊎ (result ≡ Status.NoMemory) }
    ensures right { (files : Files) → H.files shelf.old ≡ Some files
        → ¬ Rose (H.faults shelf.old) (H.faults shelf.new) → ¬ Rose (O.faults out.old) (O.faults out.new)
        → (result ≡ Status.NoMemory) ⊎ ((text : List ℕ)
        × (right_answer files (plan words.now) ≡ Writes result text)
        × (O.taken out.new ≡ append_known (O.taken out.old) text)) }
{
    answer(alloc, words, shelf, out)
}

/// Does what the words say and writes the answer.
fn answer<H: Shelf, O: Sink>(alloc: Global, words: &Words, shelf: &mut H, out: &mut O) -> Status
    ensures ends { Ends (O.taken out.old) (O.taken out.new) (O.faults out.old) (O.faults out.new)
        (H.files shelf.old) (plan words.now) (H.faults shelf.old) (H.faults shelf.new) (H.failed shelf.new) result }
    ensures keeps { H.files shelf.new ≡ H.files shelf.old }
{
    match words.command() {
        None => write(out, b"usage: map replay P S | fill P S\n", Status::Usage),
        Some(Command::Replay(files)) => replay(alloc, files, shelf, out),
        Some(Command::Fill(files)) => fill(alloc, files, shelf, out),
    }
}

/// Writes the program that the script makes of the program.
fn replay<H: Shelf, O: Sink>(
    alloc: Global,
    files: TwoFiles<'_>,
    shelf: &mut H,
    out: &mut O,
) -> Status
    ensures ends { Ends (O.taken out.old) (O.taken out.new) (O.faults out.old) (O.faults out.new) (H.files shelf.old)
        (script_on_program output files.entry.program.now files.entry.script.now) (H.faults shelf.old) (H.faults shelf.new) (H.failed shelf.new) result }
    ensures keeps { H.files shelf.new ≡ H.files shelf.old }
{
    match last_state(alloc, files, shelf) {
        Ok(state) => write_program(alloc, &state, out),
        Err(stop) => write_stop(alloc, &stop, out),
    }
}

/// Writes the script with all certificates written out.
fn fill<H: Shelf, O: Sink>(alloc: Global, files: TwoFiles<'_>, shelf: &mut H, out: &mut O) -> Status
    ensures ends { Ends (O.taken out.old) (O.taken out.new) (O.faults out.old) (O.faults out.new) (H.files shelf.old)
        (script_on_program filled files.entry.program.now files.entry.script.now) (H.faults shelf.old) (H.faults shelf.new) (H.failed shelf.new) result }
    ensures keeps { H.files shelf.new ≡ H.files shelf.old }
{
    match last_state(alloc, files, shelf) {
        Ok(state) => write_script(alloc, &state, out),
        Err(stop) => write_stop(alloc, &stop, out),
    }
}

/// Writes the text, and gives this status where all of it was taken.
fn write<O: Sink>(out: &mut O, text: &[u8], status: Status) -> Status
    ensures { IsWritten (O.taken out.old) (O.taken out.new) (O.faults out.old) (O.faults out.new)
        status text.now result }
{
    match put(out, text) {
        Ok(()) => status,
        Err(SinkFault::Failed) => Status::SinkFault,
        Err(SinkFault::NoMemory) => Status::NoMemory,
    }
}

/// Writes the live clauses, one a line.
fn write_program<O: Sink>(alloc: Global, state: &State, out: &mut O) -> Status
    ensures { IsWritten (O.taken out.old) (O.taken out.new) (O.faults out.old) (O.faults out.new)
        Status.Ok (output (state_of state.now)) result }
{
    let mut text = String::new(alloc);
    if print_program(alloc, state, &mut text).is_err() {
        return Status::NoMemory;
    }
    write(out, text.as_bytes(), Status::Ok)
}

/// Writes the script of the steps in the history.
fn write_script<O: Sink>(alloc: Global, state: &State, out: &mut O) -> Status
    ensures { IsWritten (O.taken out.old) (O.taken out.new) (O.faults out.old) (O.faults out.new)
        Status.Ok (filled (state_of state.now)) result }
{
    let mut text = String::new(alloc);
    if print_script(state.history(), &mut text).is_err() {
        return Status::NoMemory;
    }
    write(out, text.as_bytes(), Status::Ok)
}

/// The status of a replay's fault.
fn fault_status(fault: &ReplayFault) -> Status
    ensures { result ≡ right_status fault.now }
{
    match fault {
        ReplayFault::Program(_) | ReplayFault::Load(_) => Status::BadProgram,
        ReplayFault::Script(_) => Status::BadScript,
        ReplayFault::Refused(..) => Status::Refused,
        ReplayFault::NoMemory => Status::NoMemory,
    }
}

/// Writes the line of a fault.
fn write_fault<O: Sink>(alloc: Global, fault: &ReplayFault, out: &mut O) -> Status
    ensures { IsWritten (O.taken out.old) (O.taken out.new) (O.faults out.old) (O.faults out.new)
        (right_status fault.now) (right_line fault.now) result }
{
    match fault_line(alloc, fault) {
        Ok(line) => write(out, line.as_bytes(), fault_status(fault)),
        Err(_) => Status::NoMemory,
    }
}

/// Writes the line that says why there is no last state, if it has one.
fn write_stop<O: Sink>(alloc: Global, stop: &Stop, out: &mut O) -> Status
    ensures { (files : Option Files) (p : Plan) (shelf shelf' : ℕ) (failed : List ℕ) → Stops shelf shelf' failed files p stop.now
        → Ends (O.taken out.old) (O.taken out.new) (O.faults out.old) (O.faults out.new) files p shelf shelf' failed result }
{
    match stop {
        Stop::LongProgram => write(out, long_program_line().as_bytes(), Status::BadProgram),
        Stop::LongScript => write(out, long_script_line().as_bytes(), Status::BadScript),
        Stop::Fault(fault) => write_fault(alloc, fault, out),
        Stop::ShelfFault => Status::ShelfFault,
        Stop::NoMemory => Status::NoMemory,
    }
}
