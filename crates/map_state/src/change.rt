ghost use Rattle.std.specs.Prelude.{◌≡◌, []};

use crate::entry::Entry;
use clause_store::{Clause, Pred, RawClause};
use map_model::Step;
use sqlite_items::Items;
use std::alloc::Global;
use term_store::Store;

/// A clause that a step makes, in canonical form, with its mark and the ids of the clauses that it was made from.
#[derive(Drop)]
pub struct Made {
    pub clause: Clause,
    pub mark: bool,
    pub parents: Items<u32>,
}

/// What a step does to a state: the ids of the clauses that go, the clauses that come, which are read in the scratch
/// store, the predicate that the one new clause defines, and the step as it is kept in the history.
#[derive(Drop)]
pub struct Change {
    pub dead: Items<u32>,
    pub made: Items<Made>,
    pub defines: Option<Pred>,
    pub step: Step,
    pub scratch: Store,
}

impl Change {
    /// The change that kills, makes and defines nothing.
    pub fn new(alloc: Global, step: Step, scratch: Store) -> Change
        ensures { result ≡ record { dead = []; made = []; defines = None; step = step; scratch = scratch } }
    {
        Change {
            dead: Items::new(alloc),
            made: Items::new(alloc),
            defines: None,
            step,
            scratch,
        }
    }
}

/// What takes the place of a clause: the parts of the new one, which are read in the scratch store, and the step as it is
/// kept in the history.
#[derive(Drop)]
pub struct Replacement {
    pub raw: RawClause,
    pub step: Step,
    pub scratch: Store,
}

/// A predicate and the clause that defines it.
#[derive(Drop)]
pub struct Definition {
    pub pred: Pred,
    pub clause: Clause,
}

/// A change whose clauses are read in the state's store, for which the state has room.
#[derive(Drop)]
pub struct Ready {
    pub(crate) dead: Items<u32>,
    pub(crate) entries: Vec<Option<Entry>>,
    pub(crate) kept: Option<Definition>,
    pub(crate) nodes: u32,
    pub(crate) step: Step,
}
