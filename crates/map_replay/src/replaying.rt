//! Programs and scripts from their texts.

ghost use Rattle.std.specs.Prelude.{◌≡◌, ◌⊎◌, ℕ, ◌+◌, ◌-◌, ◌<◌, ◌≤◌, ◌^◌, length, take, vec_len, All, Ok, Err, OnOk, IfOk, IfErr};
ghost use Rattle.clause_model.specs.Load.{sizes_of};
ghost use Rattle.clause_loader.specs.Loaded.{program_of, clauses_in, AreStored};
ghost use Rattle.map_model.specs.State.{start_state};
ghost use Rattle.map_model.specs.After.{run};
ghost use Rattle.map_state.specs.Seen.{state_of};
ghost use Rattle.replay_model.specs.Replay.{opened, scripted, replayed, output, StopsAt, StopsWithin};
ghost use Rattle.replay_model.specs.Headline.{KeepsProvability};
ghost use Rattle.map_replay.specs.Sources.{HasFormedSource};

use crate::run::apply;
use clause_loader::{LoadFault, Loaded, load};
use clp_reader::read_program;
use map_model::{Refusal, Step};
use map_state::State;
use replay_model::ReplayFault;
use script_text::read_script;
use std::alloc::Global;
use term_store::NoMemory;
use text_fault::TextError;

/// The start state of a loaded program: each clause, marked and live, has its place from 1 as its id.
pub fn start(alloc: Global, loaded: Loaded) -> Result<State, NoMemory>
    requires stored { AreStored loaded.store loaded.clauses.items }
    requires places { vec_len loaded.clauses ≤ 4096 }
    requires nodes { sizes_of (program_of loaded).clauses ≤ 8388608 }
    ensures { IfOk result (λ s. state_of s ≡ start_state (program_of loaded).clauses (program_of loaded).predicates) }
{
    let Loaded {
        store,
        clauses,
        preds,
    } = loaded;
    State::begin(alloc, store, clauses, preds)
}

/// The start state of the program that a text is.
///
/// # Errors
///
/// `Program`, with the first fault, exactly where the text is no program, and else `Load` exactly where a clause is refused.
pub fn open_program(alloc: Global, program: &[u8]) -> Result<State, ReplayFault>
    requires { length program.now < 2 ^ 32 }
    ensures opens { IfOk result (λ s. opened program.now ≡ Ok (state_of s)) }
    ensures refuses { IfErr result (λ e. (e ≡ ReplayFault.NoMemory) ⊎ (opened program.now ≡ Err e)) }
{
    let source = match read_program(alloc, program) {
        Ok(source) => source,
        Err(TextError::Fault(fault)) => return Err(ReplayFault::Program(fault)),
        Err(TextError::NoMemory) => return Err(ReplayFault::NoMemory),
    };
    let loaded = match load(alloc, source.as_slice()) {
        Ok(loaded) => loaded,
        Err(LoadFault::NoMemory) => return Err(ReplayFault::NoMemory),
        Err(fault) => return Err(ReplayFault::Load(fault)),
    };
    match start(alloc, loaded) {
        Ok(state) => Ok(state),
        Err(_) => Err(ReplayFault::NoMemory),
    }
}

/// Carries out steps, one after another, up to the first that is refused.
fn run_steps(state: &mut State, steps: &[Step]) -> Result<(), ReplayFault>
    requires few { length steps.now < 2 ^ 32 }
    requires sources { All HasFormedSource steps.now }
    ensures runs { OnOk result (run (state_of state.old) steps.now ≡ Ok (state_of state.new)) }
    ensures stops { IfErr result (StopsAt (state_of state.old) steps.now (state_of state.new)) }
{
    for (at, step) in steps.iter().enumerate() {
        match apply(state, step) {
            Ok(_) => {}
            Err(Refusal::NoMemory) => return Err(ReplayFault::NoMemory),
            Err(refusal) => return Err(ReplayFault::Refused(at as u32 + 1, refusal)),
        }
    }
    Ok(())
}

/// Carries out the script that a text is, step by step.
///
/// # Errors
///
/// `Script`, with the first fault, exactly where the text is no script, and else `Refused` exactly where a step is refused, with the number
/// and refusal of the first such step: the state is then that after all steps before it. After `NoMemory` it is that
/// after some of the first steps.
pub fn run_script(alloc: Global, state: &mut State, script: &[u8]) -> Result<(), ReplayFault>
    requires { length script.now < 2 ^ 32 }
    ensures runs { OnOk result (scripted (state_of state.old) script.now ≡ Ok (state_of state.new)) }
    ensures refuses { IfErr result (λ e. (e ≡ ReplayFault.NoMemory) ⊎ (scripted (state_of state.old) script.now ≡ Err e)) }
    ensures stops { IfErr result (StopsWithin (state_of state.old) script.now (state_of state.new)) }
{
    match read_script(alloc, script) {
        Ok(steps) => run_steps(state, steps.as_slice()),
        Err(TextError::Fault(fault)) => Err(ReplayFault::Script(fault)),
        Err(TextError::NoMemory) => Err(ReplayFault::NoMemory),
    }
}

/// The state after a script on a program, from the texts of the two. What is printed of it keeps what is provable.
///
/// # Errors
///
/// The first that holds of: `Program`, `Load`, `Script`, `Refused`. Or `NoMemory`.
pub fn replay(alloc: Global, program: &[u8], script: &[u8]) -> Result<State, ReplayFault>
    requires program { length program.now < 2 ^ 32 }
    requires script { length script.now < 2 ^ 32 }
    ensures replays { IfOk result (λ s. replayed program.now script.now ≡ Ok (state_of s)) }
    ensures refuses { IfErr result (λ e. (e ≡ ReplayFault.NoMemory) ⊎ (replayed program.now script.now ≡ Err e)) }
    ensures headline { IfOk result (λ s. KeepsProvability program.now script.now (output (state_of s))) }
{
    let mut state = open_program(alloc, program)?;
    run_script(alloc, &mut state, script)?;
    Ok(state)
}
