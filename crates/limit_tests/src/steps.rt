ghost use Rattle.map_replay.specs.Sources.{HasFormedSource};

use crate::answers::whole;
use clp_model::Limit;
use map_replay::{Refusal, State, Step, apply, open_program};
use std::alloc::{AllocError, Global};
use std::test::Fail;
use term_store::NoMemory;

/// 4,096 clauses with 26 equal atoms each.
fn program(alloc: Global) -> Result<String, AllocError> {
    let clause = whole(alloc, &[("p :- q", 1), (", q", 25), (".\n", 1)])?;
    clause.as_str().repeat(alloc, 4096)
}

fn merge_in(id: u32) -> Step
    ensures { HasFormedSource result }
{
    Step::Merge {
        id,
        first: 1,
        second: 2,
    }
}

/// As many steps as there may be: the clauses that step 1 to 4,096 make have one atom less, and so on.
fn merge_all(state: &mut State) -> Result<(), Refusal> {
    for id in 1..=100_000 {
        apply(state, &merge_in(id))?;
    }
    Ok(())
}

/// Whether the clause with this id is live and has so many atoms.
fn has_atoms(state: &State, id: u32, atoms: usize) -> bool {
    match state.fetch(id) {
        Some(entry) => entry.live && entry.clause.atoms.len() == atoms,
        None => false,
    }
}

/// Whether the state tells this of its steps, its nodes and its next id, and so many clauses are live, from the first
/// of these ids to the last.
fn tells(
    state: &State,
    counts: (u32, u32, u32),
    live: usize,
    ends: (u32, u32),
) -> Result<bool, NoMemory> {
    let ids = state.live_ids()?;
    let (first, last) = ends;
    Ok(
        (state.steps(), state.nodes(), state.next_id()) == counts
            && ids.len() == live
            && ids.first() == Some(&first)
            && ids.last() == Some(&last),
    )
}

/// Whether one step more is refused.
fn is_full(state: &mut State) -> bool {
    match apply(state, &merge_in(100_001)) {
        Err(Refusal::TooLarge(limit)) => limit == Limit::Steps,
        _ => false,
    }
}

#[test]
fn takes_steps_up_to_the_limit(rt: HostRuntime) -> Result<(), Fail> {
    let program = program(rt.alloc())?;
    assert!(rt; program.len() < 1_000_000);
    let mut state = open_program(rt.alloc(), program.as_bytes())?;
    merge_all(&mut state)?;
    assert!(rt; is_full(&mut state) && has_atoms(&state, 100_001, 2));
    assert!(rt;
        tells(
            &state,
            (100_000, 1_539_392, 104_097),
            4096,
            (100_001, 104_096)
        )?
    );
    Ok(())
}
