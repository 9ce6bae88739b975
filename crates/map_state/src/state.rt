ghost use Rattle.std.specs.Prelude.{◌≡◌, ◌+◌, ◌-◌, ◌≤◌, ◌++◌, IfOk, OnOk, IfSome, None, length, option_map, vec_len, vec_capacity};
ghost use Rattle.std.specs.Option.{option_copied};
ghost use Rattle.clause_model.specs.Load.{sizes_of};
ghost use Rattle.clause_store.specs.Stored.{clause_in, IsStored};
ghost use Rattle.clause_loader.specs.Loaded.{clauses_in, AreStored};
ghost use Rattle.map_model.specs.State.{start_state, entry_at, live_at, live_ids_of, definition_among, definition_of, defined_of, is_among};
ghost use Rattle.map_model.specs.Rewriting.{state_limit};
ghost use Rattle.clp_model.specs.Predicates.{same_predicate};
ghost use Rattle.map_state.specs.Seen.{state_of, entry_in, definitions_in, AllKept};
ghost use Rattle.map_state.specs.Changes.{IsChange, changed, IsReady, ready_state};
ghost use Rattle.map_state.specs.Rows.{kept_clauses, kept_preds};

use crate::change::{Change, Definition, Ready};
use crate::copying::made_ready;
use crate::entry::{Entry, is_live, kill_all, load_all};
use crate::totals::{made_nodes, present_count, total_size};
use clause_store::{Clause, Limit, Pred, pred_is};
use map_model::Step;
use sqlite_items::Items;
use std::alloc::Global;
use std::marker::Model;
use term_store::{NoMemory, Store};

const MAX_LIVE: usize = 4096;

const MAX_NODES: u32 = 8_388_608;

/// What a run has made so far: entries by id, kept definitions, initial predicates and filled steps. It has at most
/// 4,096 live clauses, 100,000 steps, and clauses of 8,388,608 nodes together.
#[derive(Drop)]
pub struct State {
    alloc: Global,
    store: Store,
    entries: Vec<Option<Entry>>,
    definitions: Vec<Clause>,
    /// The predicates of the definitions, in order.
    defined: Vec<Pred>,
    initials: Items<Pred>,
    history: Vec<Step>,
    live: u32,
    nodes: u32,
}

impl Model for State {
    ghost use Rattle.map_state.specs.Seen.{Seen, IsSound};
    ghost use Rattle.map_state.specs.SeenCode.{seen_code};

    ghost Value = { Seen };

    ghost coded = { seen_code };

    ghost use Rattle.map_state.specs.Inside.{seen_of};

    ghost view = { seen_of };

    ghost invariant = { λ s. IsSound (seen_of s) };
}

impl State {
    /// The state of a loaded program: each clause, marked and live, has its place from 1 as its id, an absent one
    /// leaves its id empty, and `preds` are the initial predicates.
    pub fn begin(
        alloc: Global,
        store: Store,
        clauses: Vec<Option<Clause>>,
        preds: Items<Pred>,
    ) -> Result<State, NoMemory>
        requires stored { AreStored store clauses.items }
        requires places { vec_len clauses ≤ 4096 }
        requires nodes { sizes_of (clauses_in store clauses.items) ≤ 8388608 }
        ensures { IfOk result (λ s. state_of s ≡ start_state (clauses_in store clauses.items) preds) }
    {
        let live = present_count(clauses.as_slice());
        let nodes = total_size(&store, clauses.as_slice());
        let entries = load_all(alloc, clauses)?;
        Ok(State {
            alloc,
            store,
            entries,
            definitions: Vec::new(alloc),
            defined: Vec::new(alloc),
            initials: preds,
            history: Vec::new(alloc),
            live,
            nodes,
        })
    }

    /// Where the state allocates.
    pub fn alloc(&self) -> Global {
        self.alloc
    }

    /// The store in which the clauses are read.
    pub fn store(&self) -> &Store
        ensures { result.now ≡ self.now.store }
    {
        &self.store
    }

    /// The entry with this id. `None` exactly where the id was not made or is empty.
    pub fn fetch(&self, id: u32) -> Option<&Entry>
        ensures value { option_map (entry_in self.now.store) (option_copied result) ≡ entry_at (state_of self.now) id }
        ensures stored { IfSome result (λ e. IsStored self.now.store e.now.clause) }
    {
        if id == 0 {
            return None;
        }
        self.entries.get((id - 1) as usize)?.as_ref()
    }

    /// The entry with this id, if it is live.
    pub fn live_entry(&self, id: u32) -> Option<&Entry>
        ensures value { option_map (entry_in self.now.store) (option_copied result) ≡ live_at (state_of self.now) id }
        ensures stored { IfSome result (λ e. IsStored self.now.store e.now.clause) }
    {
        let entry = self.fetch(id)?;
        if entry.live { Some(entry) } else { None }
    }

    /// The kept definition of a predicate, the first if there are more.
    pub fn definition(&self, p: &Pred) -> Option<&Clause>
        ensures value { option_map (clause_in self.now.store) (option_copied result) ≡ definition_of (state_of self.now) p.now }
        ensures stored { IfSome result (λ c. IsStored self.now.store c.now) }
    {
        definition_among(&self.store, self.definitions.as_slice(), p)
    }

    /// The predicates of the kept definitions, in order.
    pub fn defined(&self) -> &[Pred]
        ensures { result.now ≡ defined_of (state_of self.now) }
    {
        self.defined.as_slice()
    }

    /// The initial predicates, by first occurrence.
    pub fn initials(&self) -> &[Pred]
        ensures { result.now ≡ (state_of self.now).initials }
    {
        self.initials.as_slice()
    }

    /// Whether a predicate is initial.
    pub fn is_initial(&self, pred: &Pred) -> bool
        ensures { result ≡ is_among (state_of self.now).initials pred.now }
    {
        is_among(self.initials.as_slice(), pred)
    }

    /// Whether a predicate has a kept definition.
    pub fn is_defined(&self, pred: &Pred) -> bool
        ensures { result ≡ is_among (defined_of (state_of self.now)) pred.now }
    {
        is_among(self.defined(), pred)
    }

    /// The number of steps.
    pub fn steps(&self) -> u32
        ensures value { result ≡ length (state_of self.now).steps }
        ensures few { result ≤ 100000 }
    {
        self.history.len() as u32
    }

    /// The sizes of all clauses made so far, together.
    pub fn nodes(&self) -> u32
        ensures { result ≡ (state_of self.now).nodes }
    {
        self.nodes
    }

    /// The next free id.
    pub fn next_id(&self) -> u32
        ensures { result ≡ length (state_of self.now).entries + 1 }
    {
        self.entries.len() as u32 + 1
    }

    /// The filled steps.
    pub fn history(&self) -> &[Step]
        ensures { result.now ≡ (state_of self.now).steps }
    {
        self.history.as_slice()
    }

    /// The ids of the live clauses, in rising order.
    pub fn live_ids(&self) -> Result<Vec<u32>, NoMemory>
        ensures { IfOk result (λ ids. ids.items ≡ live_ids_of (state_of self.now)) }
    {
        let mut ids = Vec::new(self.alloc);
        for (place, entry) in self.entries.iter().enumerate() {
            if is_live(entry) {
                ids.push(place as u32 + 1)?;
            }
        }
        Ok(ids)
    }

    /// The first limit that the state would be past after a change: its live clauses, then all nodes.
    pub fn limit_past(&self, change: &Change) -> Option<Limit>
        requires { IsChange (state_of self.now) change.now }
        ensures { result ≡ state_limit (changed (state_of self.now) change.now) }
    {
        if change.made.len() > MAX_LIVE - self.live as usize + change.dead.len() {
            return Some(Limit::Clauses);
        }
        if self.nodes + made_nodes(&change.scratch, change.made.as_slice()) > MAX_NODES {
            return Some(Limit::Nodes);
        }
        None
    }

    /// Puts the terms of a change into the state's store and makes room for all else. The state is seen as before, also
    /// after an error.
    pub fn reserve(&mut self, change: Change) -> Result<Ready, NoMemory>
        requires change { IsChange (state_of self.old) change }
        requires within { state_limit (changed (state_of self.old) change) ≡ None }
        ensures same { state_of self.new ≡ state_of self.old }
        ensures ready { IfOk result (λ ready. IsReady self.new ready) }
        ensures makes { IfOk result (λ ready. ready_state self.new ready ≡ changed (state_of self.old) change) }
    {
        let number = self.history.len() as u32 + 1;
        let ready = made_ready(self.alloc, &mut self.store, change, number)?;
        self.entries.reserve(ready.entries.len())?;
        make_room(&mut self.definitions, &mut self.defined, &mut self.history)?;
        Ok(ready)
    }

    /// A reserved change takes effect.
    pub fn commit(&mut self, ready: Ready)
        requires { IsReady self.old ready }
        ensures { state_of self.new ≡ ready_state self.old ready }
    {
        let Ready {
            dead,
            mut entries,
            kept,
            nodes,
            step,
        } = ready;
        kill_all(&mut self.entries, dead.as_slice());
        self.live = self.live + entries.len() as u32 - dead.len() as u32;
        self.nodes += nodes;
        self.entries.append(&mut entries).unwrap();
        keep(&mut self.definitions, &mut self.defined, kept);
        self.history.push(step).unwrap();
    }
}

/// The first of these clauses whose head has the predicate.
fn definition_among<'a>(store: &Store, definitions: &'a [Clause], p: &Pred) -> Option<&'a Clause>
    requires { AllKept store.now definitions.now }
    ensures value { option_map (clause_in store.now) (option_copied result) ≡ definition_among (definitions_in store.now definitions.now) p.now }
    ensures stored { IfSome result (λ c. IsStored store.now c.now) }
{
    for clause in definitions {
        if pred_is(store, clause.head, p) {
            return Some(clause);
        }
    }
    None
}

/// Room for one definition and one step more; all three lists stay as they are.
fn make_room(
    definitions: &mut Vec<Clause>,
    defined: &mut Vec<Pred>,
    history: &mut Vec<Step>,
) -> Result<(), NoMemory>
    ensures definitions { definitions.new.items ≡ definitions.old.items }
    ensures defined { defined.new.items ≡ defined.old.items }
    ensures history { history.new.items ≡ history.old.items }
    ensures definition_room { OnOk result (1 ≤ vec_capacity definitions.new - vec_len definitions.new) }
    ensures defined_room { OnOk result (1 ≤ vec_capacity defined.new - vec_len defined.new) }
    ensures history_room { OnOk result (1 ≤ vec_capacity history.new - vec_len history.new) }
{
    definitions.reserve(1)?;
    defined.reserve(1)?;
    history.reserve(1)?;
    Ok(())
}

/// The definition, if there is one, becomes the last.
fn keep(definitions: &mut Vec<Clause>, defined: &mut Vec<Pred>, kept: Option<Definition>)
    requires clause { 1 ≤ vec_capacity definitions.old - vec_len definitions.old }
    requires pred { 1 ≤ vec_capacity defined.old - vec_len defined.old }
    ensures definitions { definitions.new.items ≡ definitions.old.items ++ kept_clauses kept }
    ensures defined { defined.new.items ≡ defined.old.items ++ kept_preds kept }
{
    if let Some(definition) = kept {
        definitions.push(definition.clause).unwrap();
        defined.push(definition.pred).unwrap();
    }
}

/// Whether a predicate is among these.
fn is_among(preds: &[Pred], pred: &Pred) -> bool
    ensures { result ≡ is_among preds.now pred.now }
{
    for other in preds {
        if same_pred(other, pred) {
            return true;
        }
    }
    false
}

/// Whether two predicates are equal. Takes no memory.
pub fn same_pred(a: &Pred, b: &Pred) -> bool
    ensures { result ≡ same_predicate a.now b.now }
{
    a.name.as_str() == b.name.as_str() && a.arity == b.arity
}
