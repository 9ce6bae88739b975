//! A script on a program, by the names of their files.

ghost use Rattle.std.specs.Prelude.{◌≡◌, ◌≢◌, ℕ, List, None, Ok, Err, IfOk, IfErr, IfSome, OnOk};
ghost use Rattle.map_model.specs.State.{State as S};
ghost use Rattle.map_state.specs.Seen.{state_of};
ghost use Rattle.map_base.specs.Outside.{Rose, TellsLonger};
ghost use Rattle.command_model.specs.Causes.{Gives, LeadsTo};
ghost use Rattle.command_model.specs.Plan.{after_program, script_on_program};
ghost use Rattle.command_model.specs.declared.status.Status.TheVariants as status;
ghost use Rattle.map_main.specs.Endings.{Opens, Runs, Stops};

use super::command::TwoFiles;
use map_base::{Loading, Shelf, ShelfFault};
use map_replay::{ReplayFault, State, open_program, run_script};
use std::alloc::Global;

/// The greatest length of a program.
const MAX_PROGRAM: usize = 1_048_576;

/// The greatest length of a script.
const MAX_SCRIPT: usize = 16_777_216;

/// Why there is no last state.
#[derive(Drop)]
pub enum Stop {
    /// The program is too long.
    LongProgram,
    /// The script is too long.
    LongScript,
    /// The program or the script has a fault, or a step is refused.
    Fault(ReplayFault),
    /// A file was not loaded.
    ShelfFault,
    /// There was no memory.
    NoMemory,
}

/// The file of this name, or none where it has more than `most` bytes.
fn load_file<H: Shelf>(
    alloc: Global,
    name: &str,
    most: usize,
    shelf: &mut H,
) -> Result<Option<Vec<u8>>, ShelfFault>
    ensures given { IfOk result (λ file. IfSome file (λ bytes.
        Gives (H.files shelf.old) name.now most bytes.items)) }
    ensures long { result ≡ Ok None → TellsLonger (H.files shelf.old) name.now most }
    ensures keeps { H.files shelf.new ≡ H.files shelf.old }
    ensures cause { result ≡ Err ShelfFault.Failed →
        Rose (H.faults shelf.old) (H.faults shelf.new) × (H.failed shelf.new ≡ name.now) }
    ensures quiet { result ≢ Err ShelfFault.Failed → H.faults shelf.new ≡ H.faults shelf.old }
{
    let mut bytes = Vec::new(alloc);
    match shelf.load(name, &mut bytes, most) {
        Ok(Loading::Whole) => Ok(Some(bytes)),
        Ok(Loading::TooLong) => Ok(None),
        Err(fault) => Err(fault),
    }
}

/// The state of the program of this name.
fn open_file<H: Shelf>(alloc: Global, name: &str, shelf: &mut H) -> Result<State, Stop>
    ensures opens { IfOk result (λ s. Opens (H.files shelf.old) name.now (state_of s)) }
    ensures quiet { OnOk result (H.faults shelf.new ≡ H.faults shelf.old) }
    ensures stops { IfErr result (λ e. (text_of : S → List ℕ) (script : List ℕ) → Stops (H.faults shelf.old) (H.faults shelf.new)
        (H.failed shelf.new) (H.files shelf.old) (script_on_program text_of name.now script) e) }
    ensures keeps { H.files shelf.new ≡ H.files shelf.old }
{
    let program = match load_file(alloc, name, MAX_PROGRAM, shelf) {
        Ok(Some(program)) => program,
        Ok(None) => return Err(Stop::LongProgram),
        Err(ShelfFault::Failed) => return Err(Stop::ShelfFault),
        Err(ShelfFault::NoMemory) => return Err(Stop::NoMemory),
    };
    match open_program(alloc, program.as_slice()) {
        Ok(state) => Ok(state),
        Err(ReplayFault::NoMemory) => Err(Stop::NoMemory),
        Err(fault) => Err(Stop::Fault(fault)),
    }
}

/// Carries out the script of this name.
fn run_file<H: Shelf>(
    alloc: Global,
    name: &str,
    shelf: &mut H,
    state: &mut State,
) -> Result<(), Stop>
    ensures runs { OnOk result
        (Runs (H.files shelf.old) name.now (state_of state.old) (state_of state.new)) }
    ensures quiet { OnOk result (H.faults shelf.new ≡ H.faults shelf.old) }
    ensures stops { IfErr result (λ e. (text_of : S → List ℕ) → Stops (H.faults shelf.old) (H.faults shelf.new)
        (H.failed shelf.new) (H.files shelf.old) (after_program text_of name.now (Ok (state_of state.old))) e) }
    ensures keeps { H.files shelf.new ≡ H.files shelf.old }
{
    let script = match load_file(alloc, name, MAX_SCRIPT, shelf) {
        Ok(Some(script)) => script,
        Ok(None) => return Err(Stop::LongScript),
        Err(ShelfFault::Failed) => return Err(Stop::ShelfFault),
        Err(ShelfFault::NoMemory) => return Err(Stop::NoMemory),
    };
    match run_script(alloc, state, script.as_slice()) {
        Ok(()) => Ok(()),
        Err(ReplayFault::NoMemory) => Err(Stop::NoMemory),
        Err(fault) => Err(Stop::Fault(fault)),
    }
}

/// The last state of the script on the program, once every step is accepted.
pub fn last_state<H: Shelf>(
    alloc: Global,
    files: TwoFiles<'_>,
    shelf: &mut H,
) -> Result<State, Stop>
    ensures reached { IfOk result (λ s. (text_of : S → List ℕ) → LeadsTo (H.files shelf.old)
        (script_on_program text_of files.entry.program.now files.entry.script.now) status.Ok (text_of (state_of s))) }
    ensures quiet { OnOk result (H.faults shelf.new ≡ H.faults shelf.old) }
    ensures stops { IfErr result (λ e. (text_of : S → List ℕ) → Stops (H.faults shelf.old) (H.faults shelf.new)
        (H.failed shelf.new) (H.files shelf.old) (script_on_program text_of files.entry.program.now files.entry.script.now) e) }
    ensures keeps { H.files shelf.new ≡ H.files shelf.old }
{
    let mut state = match open_file(alloc, files.program, shelf) {
        Ok(state) => state,
        Err(stop) => return Err(stop),
    };
    match run_file(alloc, files.script, shelf, &mut state) {
        Ok(()) => Ok(state),
        Err(stop) => Err(stop),
    }
}
