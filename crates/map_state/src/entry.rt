//! Clauses with their ids.

ghost use Rattle.std.specs.Prelude.{◌≡◌, ◌<◌, IfOk, map, vec_len, vec_capacity};
ghost use Rattle.map_model.specs.Rewriting.{changed_at};
ghost use Rattle.map_state.specs.Rows.{dead_row, rows_killed, AllIds, loaded_row, is_live_row};

use clause_store::Clause;
use sqlite_items::Items;
use std::alloc::{AllocError, Global};

/// A clause of a state, read in the state's store.
#[derive(Drop)]
pub struct Entry {
    pub clause: Clause,
    pub mark: bool,
    pub live: bool,
    /// The number of the step that made it; 0 for a loaded clause.
    pub made_at: u32,
    /// The ids of the clauses that it was made from.
    pub parents: Items<u32>,
}

/// The entry of a loaded clause.
fn loaded(alloc: Global, clause: Option<Clause>) -> Option<Entry>
    ensures { result ≡ loaded_row clause }
{
    Some(Entry {
        clause: clause?,
        mark: true,
        live: true,
        made_at: 0,
        parents: Items::new(alloc),
    })
}

pub(crate) fn load_all(
    alloc: Global,
    clauses: Vec<Option<Clause>>,
) -> Result<Vec<Option<Entry>>, AllocError>
    ensures { IfOk result (λ entries. entries.items ≡ map loaded_row clauses.items) }
{
    clauses
        .into_iter()
        .map(|clause| loaded(alloc, clause))
        .collect(alloc)
}

pub(crate) fn is_live(entry: &Option<Entry>) -> bool
    ensures { result ≡ is_live_row entry.now }
{
    match entry {
        Some(entry) => entry.live,
        None => false,
    }
}

/// The entries with these ids are no longer live.
pub(crate) fn kill_all(entries: &mut Vec<Option<Entry>>, dead: &[u32])
    requires { AllIds (vec_len entries.old) dead.now }
    ensures items { entries.new.items ≡ rows_killed entries.old.items dead.now }
    ensures len { vec_len entries.new ≡ vec_len entries.old }
    ensures capacity { vec_capacity entries.new ≡ vec_capacity entries.old }
{
    for id in dead {
        kill(entries, (*id - 1) as usize);
    }
}

fn kill(entries: &mut Vec<Option<Entry>>, place: usize)
    requires { place < vec_len entries.old }
    ensures items { entries.new.items ≡ changed_at dead_row entries.old.items place }
    ensures len { vec_len entries.new ≡ vec_len entries.old }
    ensures capacity { vec_capacity entries.new ≡ vec_capacity entries.old }
{
    if let Some(entry) = &mut entries[place] {
        entry.live = false;
    }
}
