//! The clauses of a change, put into the state's store.

ghost use Rattle.std.specs.Prelude.{◌≡◌, ◌≤◌, IfOk, true, length};
ghost use Rattle.term_store.specs.Trees.{Keeps};
ghost use Rattle.clause_store.specs.Stored.{IsStored};
ghost use Rattle.map_state.specs.Seen.{entry_in};
ghost use Rattle.map_state.specs.Changes.{AllMade, made_entry};
ghost use Rattle.map_state.specs.Rows.{AreMade, kept_first, nodes_of_made};

use crate::change::{Change, Definition, Made, Ready};
use crate::entry::Entry;
use crate::totals::made_nodes;
use clause_store::{Pred, copy_clause};
use sqlite_items::Items;
use std::alloc::Global;
use term_store::{NoMemory, Store};

/// The entry of a clause that a step makes, in the store of the state.
fn copy_one(
    alloc: Global,
    store: &mut Store,
    scratch: &Store,
    one: &Made,
    number: u32,
) -> Result<Entry, NoMemory>
    requires { IsStored scratch.now one.now.clause }
    ensures keeps { Keeps store.old store.new }
    ensures is { IfOk result (λ e. entry_in store.new e ≡ made_entry number scratch.now one.now) }
    ensures stored { IfOk result (λ e. IsStored store.new e.clause) }
    ensures live { IfOk result (λ e. e.live ≡ true) }
{
    Ok(Entry {
        clause: copy_clause(alloc, store, scratch, &one.clause)?,
        mark: one.mark,
        live: true,
        made_at: number,
        parents: Items::from_slice(alloc, one.parents.as_slice())?,
    })
}

/// The entries of all clauses that a step makes.
fn copy_made(
    alloc: Global,
    store: &mut Store,
    scratch: &Store,
    made: &[Made],
    number: u32,
) -> Result<Vec<Option<Entry>>, NoMemory>
    requires { AllMade scratch.now made.now }
    ensures keeps { Keeps store.old store.new }
    ensures are { IfOk result (λ entries. AreMade store.new number scratch.now made.now entries.items) }
{
    let mut entries = Vec::new(alloc);
    for one in made {
        let entry = copy_one(alloc, store, scratch, one, number)?;
        entries.push(Some(entry))?;
    }
    Ok(entries)
}

/// The first new clause as the definition of the predicate, if one is defined.
fn kept_first(
    alloc: Global,
    defines: Option<Pred>,
    entries: &[Option<Entry>],
) -> Result<Option<Definition>, NoMemory>
    ensures { IfOk result (λ kept. kept ≡ kept_first defines entries.now) }
{
    let Some(pred) = defines else {
        return Ok(None);
    };
    let Some(Some(entry)) = entries.first() else {
        return Ok(None);
    };
    Ok(Some(Definition {
        pred,
        clause: entry.clause.copy(alloc)?,
    }))
}

/// What is reserved of a change, its clauses put into the store as the entries of the step of this number.
pub(crate) fn made_ready(
    alloc: Global,
    store: &mut Store,
    change: Change,
    number: u32,
) -> Result<Ready, NoMemory>
    requires stored { AllMade change.scratch change.made }
    requires few { length change.made ≤ 4096 }
    ensures keeps { Keeps store.old store.new }
    ensures made { IfOk result (λ ready. AreMade store.new number change.scratch change.made ready.entries.items) }
    ensures kept { IfOk result (λ ready. ready.kept ≡ kept_first change.defines ready.entries.items) }
    ensures nodes { IfOk result (λ ready. ready.nodes ≡ nodes_of_made change.scratch change.made) }
    ensures dead { IfOk result (λ ready. ready.dead ≡ change.dead) }
    ensures step { IfOk result (λ ready. ready.step ≡ change.step) }
{
    let made = change.made.as_slice();
    let nodes = made_nodes(&change.scratch, made);
    let entries = copy_made(alloc, store, &change.scratch, made, number)?;
    let kept = kept_first(alloc, change.defines, entries.as_slice())?;
    Ok(Ready {
        dead: change.dead,
        entries,
        kept,
        nodes,
        step: change.step,
    })
}
