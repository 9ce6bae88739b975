//! What a state tells at its start, after a step, after a refusal, and when a change is reserved.

ghost use Rattle.std.specs.Prelude.{◌<◌, ◌≤◌, ◌^◌, length, vec_len, IfOk};
ghost use Rattle.clause_model.specs.Load.{sizes_of};
ghost use Rattle.clause_loader.specs.Loaded.{program_of, AreStored};
ghost use Rattle.map_state.specs.Seen.{state_of};
ghost use Rattle.map_state.specs.Changes.{IsChange};
ghost use Rattle.map_replay.specs.Sources.{HasFormedSource};

use clause_core::copy_clause;
use clp_model::{Name, Pred};
use clp_syntax::{Loaded, TextError, load, read_program};
use map_replay::{
    Change, Made, Refusal, ReplayFault, State, Step, apply, open_program, refusal_text, start,
};
use sqlite_items::Items;
use std::alloc::Global;
use std::test::Fail;
use term_store::{NoMemory, Store};

/// The steps, the nodes, the next id, the live ids and the number of initial predicates.
type Seen = (u32, u32, u32, &'static [u32], usize);

fn is_so(state: &State, wanted: &Seen) -> Result<bool, NoMemory> {
    let (steps, nodes, next_id, live, initials) = *wanted;
    let ids = state.live_ids()?;
    Ok(
        (state.steps(), state.nodes(), state.next_id()) == (steps, nodes, next_id)
            && ids.as_slice() == live
            && state.initials().len() == initials,
    )
}

fn merge_in(id: u32) -> Step
    ensures { HasFormedSource result }
{
    Step::Merge {
        id,
        first: 1,
        second: 2,
    }
}

/// The id of an entry, whether it is live, its mark, and the number of the step that made it.
type Told = (u32, bool, bool, u32);

static ENTRIES: [Told; 3] = [(1, false, true, 0), (2, true, true, 0), (3, true, true, 1)];

fn has_entry(state: &State, wanted: &Told) -> bool {
    let (id, live, mark, made_at) = *wanted;
    match state.fetch(id) {
        Some(entry) => (entry.live, entry.mark, entry.made_at) == (live, mark, made_at),
        None => false,
    }
}

/// Whether `q` with so many arguments is initial.
fn has_initial(state: &State, arity: u32) -> Result<bool, NoMemory> {
    let name = Name::copy_of(state.alloc(), "q")?;
    Ok(state.is_initial(&Pred { name, arity }))
}

/// The line of the refusal of a merge, empty where it is accepted.
fn refusal_of_merge(state: &mut State) -> Result<String, NoMemory> {
    let mut line = String::new(state.alloc());
    if let Err(refusal) = apply(state, &merge_in(1)) {
        refusal_text(state.alloc(), &refusal, &mut line)?;
    }
    Ok(line)
}

/// Whether a merge is refused with this line, or accepted where it is empty, and the state is so after it.
fn merges(state: &mut State, line: &str, wanted: &Seen) -> Result<bool, NoMemory> {
    let found = refusal_of_merge(state)?;
    Ok(found.as_str() == line && is_so(state, wanted)?)
}

/// The state after the merge.
static MERGED: Seen = (1, 11, 4, &[2, 3], 3);

fn has_entries(state: &State) -> bool {
    for wanted in ENTRIES.iter() {
        if !has_entry(state, wanted) {
            return false;
        }
    }
    state.fetch(4).is_none()
}

/// Whether the state tells what it should after the merge, and after a refusal the same.
fn tells(state: &mut State) -> Result<bool, NoMemory> {
    let merged = merges(state, "", &MERGED)?;
    let refused = merges(state, "1 no clause 1", &MERGED)?;
    let initials = has_initial(state, 1)? && !has_initial(state, 2)?;
    Ok(merged && refused && initials && has_entries(state))
}

#[test]
fn tells_the_state(rt: HostRuntime) -> Result<(), Fail> {
    let program = "p(X) :- q(X), q(X). r.";
    assert!(rt; program.len() < 4096);
    let mut state = open_program(rt.alloc(), program.as_bytes())?;
    assert!(rt; tells(&mut state)?);
    Ok(())
}

/// A loaded program.
fn loaded(alloc: Global, program: &[u8]) -> Result<Loaded, ReplayFault>
    requires { length program.now < 2 ^ 32 }
    ensures stored { IfOk result (λ l. AreStored l.store l.clauses.items) }
    ensures places { IfOk result (λ l. vec_len l.clauses ≤ 4096) }
    ensures nodes { IfOk result (λ l. sizes_of (program_of l).clauses ≤ 8388608) }
{
    let source = match read_program(alloc, program) {
        Ok(source) => source,
        Err(TextError::Fault(fault)) => return Err(ReplayFault::Program(fault)),
        Err(TextError::NoMemory) => return Err(ReplayFault::NoMemory),
    };
    match load(alloc, source.as_slice()) {
        Ok(loaded) => Ok(loaded),
        Err(fault) => Err(ReplayFault::Load(fault)),
    }
}

/// The start state of a program.
fn started(alloc: Global, program: &[u8]) -> Result<State, ReplayFault>
    requires { length program.now < 2 ^ 32 }
    ensures { IfOk result (λ s. length (state_of s).steps < 100000) }
{
    start(alloc, loaded(alloc, program)?).or(Err(ReplayFault::NoMemory))
}

/// The same, from the parts of the loaded program.
fn begun(alloc: Global, program: &[u8]) -> Result<State, ReplayFault>
    requires { length program.now < 2 ^ 32 }
{
    let Loaded {
        store,
        clauses,
        preds,
    } = loaded(alloc, program)?;
    State::begin(alloc, store, clauses, preds).or(Err(ReplayFault::NoMemory))
}

/// A program, and its start state.
static STARTS: [(&str, Seen); 4] = [
    ("", (0, 0, 1, &[], 0)),
    ("p.", (0, 1, 2, &[1], 1)),
    ("p(X) :- q(X), q(X). r.", (0, 7, 3, &[1, 2], 3)),
    ("p(f(X),X). p :- p(a,b), p. p.", (0, 10, 4, &[1, 2, 3], 2)),
];

fn both_begin(alloc: Global, program: &[u8], wanted: &Seen) -> Result<bool, ReplayFault>
    requires { length program.now < 2 ^ 32 }
{
    let one = started(alloc, program)?;
    let other = begun(alloc, program)?;
    Ok(is_so(&one, wanted).unwrap_or(false) && is_so(&other, wanted).unwrap_or(false))
}

#[test]
fn states_begin(rt: HostRuntime) -> Result<(), Fail> {
    for (program, wanted) in STARTS.iter() {
        assert!(rt; program.len() < 4096);
        assert!(rt;
            both_begin(rt.alloc(), program.as_bytes(), wanted)?,
            "{program}"
        );
    }
    Ok(())
}

/// The change that puts an unmarked copy of a clause in its place.
fn copied(state: &State, id: u32) -> Result<Change, Refusal>
    requires { length (state_of state.now).steps < 100000 }
    ensures { IfOk result (IsChange (state_of state.now)) }
{
    let Some(entry) = state.fetch(id) else {
        return Err(Refusal::NoClause(id));
    };
    if !entry.live {
        return Err(Refusal::NoClause(id));
    }
    let mut scratch = Store::new(state.alloc());
    let clause = copy_clause(state.alloc(), &mut scratch, state.store(), &entry.clause)?;
    let parents = Items::from_slice(state.alloc(), &[id])?;
    let mut change = Change::new(state.alloc(), merge_in(id), scratch);
    change.dead.push(id)?;
    change.made.push(Made {
        clause,
        mark: false,
        parents,
    })?;
    Ok(change)
}

/// The state before a change, also once it is reserved, and after it.
static RESERVED: [Seen; 2] = [(0, 7, 3, &[1, 2], 3), (1, 13, 4, &[2, 3], 3)];

/// Whether a change within the limits is seen after its commit, and not before.
fn is_seen_once_committed(state: &mut State, change: Change) -> Result<bool, NoMemory>
    requires { IsChange (state_of state.old) change }
{
    let [before, after] = &RESERVED;
    if state.limit_past(&change).is_some() {
        return Ok(false);
    }
    let ready = state.reserve(change)?;
    let unseen = is_so(state, before)?;
    state.commit(ready);
    Ok(unseen && is_so(state, after)?)
}

/// Whether a history is the merge of the first two atoms of the first clause, and no more.
fn is_one_merge(history: &[Step]) -> bool {
    match history.first() {
        Some(Step::Merge { id, first, second }) => (*id, *first, *second) == (1, 1, 2)
            && history.len() == 1,
        _ => false,
    }
}

/// Whether the last step and the clause that it made are those of the change.
fn has_copy(state: &State) -> bool {
    match state.fetch(3) {
        Some(entry) => has_entry(state, &(3, true, false, 1))
            && entry.parents.as_slice() == [1].as_slice()
            && is_one_merge(state.history()),
        None => false,
    }
}

#[test]
fn reserves_a_change(rt: HostRuntime) -> Result<(), Fail> {
    let program = "p(X) :- q(X), q(X). r.";
    assert!(rt; program.len() < 4096);
    let mut state = started(rt.alloc(), program.as_bytes())?;
    let change = copied(&state, 1)?;
    assert!(rt; is_seen_once_committed(&mut state, change)?);
    assert!(rt; has_copy(&state));
    Ok(())
}
