//! Loads a program: makes the clauses of its source clauses.

ghost use Rattle.std.specs.Prelude.{◌≡◌, ◌≤◌, ◌<◌, ◌+◌, ◌^◌, ◌∷◌, [], map, length, All, Ok, IfOk, IfErr, OnOk};
ghost use Rattle.clause_model.specs.Load.{load_one, loaded_after, sizes_of};
ghost use Rattle.clause_model.specs.Load as spec;
ghost use Rattle.term_store.specs.Trees.{Keeps};
ghost use Rattle.clause_store.specs.Source.{meaning_of};
ghost use Rattle.clause_loader.specs.WellFormed.{IsWellFormed, IsNarrow};
ghost use Rattle.clause_loader.specs.Loaded.{place_in, clauses_in, program_of, IsStoredPlace, AreStored, IsStopped, StopsAt};
ghost use Rattle.clause_loader.specs.declared.program.LoadFault.TheVariants.{NoMemory};

use crate::loading::load_one;
use crate::predicates::predicates_of;
use clause_store::{Clause, ClauseFault, Limit, Pred, SourceClause, clause_size};
use sqlite_items::Items;
use std::alloc::{AllocFailed, Global};
use term_store::{NoMemory, Store};

const MAX_NODES: u32 = 8_388_608;

/// The clauses of a program, with the store of their terms, and its predicates.
#[derive(Drop)]
pub struct Loaded {
    pub store: Store,
    /// A place for each source clause, which stays empty where nothing solves the equations of the clause.
    pub clauses: Vec<Option<Clause>>,
    /// Each predicate that occurs in the program, once, by first occurrence, those of the clauses left out too.
    pub preds: Items<Pred>,
}

/// Why a program was not loaded.
#[derive(Clone, Copy, Debug, PartialEq, Eq)]
pub enum LoadFault {
    /// The first refused clause, from 1: the normal form of a row has a number of 2^63 or more in magnitude.
    Overflow(u32),
    /// The first refused clause, from 1, and the limit that refuses it.
    TooLarge(u32, Limit),
    NoMemory,
}

impl From<NoMemory> for LoadFault {
    ghost from_gives = { λ _ e. e ≡ NoMemory };

    fn from(_e: NoMemory) -> LoadFault {
        LoadFault::NoMemory
    }
}

impl<T: Drop> From<AllocFailed<T>> for LoadFault {
    ghost from_gives = { λ _ e. e ≡ NoMemory };

    fn from(_e: AllocFailed<T>) -> LoadFault {
        LoadFault::NoMemory
    }
}

/// The clause at a place of the program; `nodes` are those of all clauses so far.
fn load_next(
    alloc: Global,
    store: &mut Store,
    source: &SourceClause,
    place: u32,
    nodes: u32,
) -> Result<(Option<Clause>, u32), LoadFault>
    requires formed { IsWellFormed source.now }
    requires few { nodes ≤ 8388608 }
    ensures keeps { Keeps store.old store.new }
    ensures made { IfOk result (λ r. load_one (meaning_of source.now) ≡ Ok (place_in store.new r.0)) }
    ensures stored { IfOk result (λ r. IsStoredPlace store.new r.0) }
    ensures nodes { IfOk result (λ r. r.1 ≡ nodes + sizes_of (place_in store.new r.0 ∷ [])) }
    ensures few { IfOk result (λ r. r.1 ≤ 8388608) }
    ensures refused { IfErr result (StopsAt place nodes (meaning_of source.now)) }
{
    match load_one(alloc, store, source) {
        Ok(None) => Ok((None, nodes)),
        Ok(Some(clause)) => {
            let nodes = nodes + clause_size(store, &clause);
            if nodes > MAX_NODES {
                return Err(LoadFault::TooLarge(place, Limit::Nodes));
            }
            Ok((Some(clause), nodes))
        }
        Err(ClauseFault::Overflow) => Err(LoadFault::Overflow(place)),
        Err(ClauseFault::TooLarge(limit)) => Err(LoadFault::TooLarge(place, limit)),
        Err(ClauseFault::NoMemory) => Err(LoadFault::NoMemory),
    }
}

fn load_clauses(
    alloc: Global,
    store: &mut Store,
    source: &[SourceClause],
) -> Result<Vec<Option<Clause>>, LoadFault>
    requires formed { All IsWellFormed source.now }
    requires few { length source.now < 2 ^ 32 }
    ensures made { IfOk result (λ cs. loaded_after 1 [] 0 (map meaning_of source.now) ≡ Ok (clauses_in store.new cs.items)) }
    ensures stored { IfOk result (λ cs. AreStored store.new cs.items) }
    ensures refused { IfErr result (IsStopped (loaded_after 1 [] 0 (map meaning_of source.now))) }
{
    let mut clauses = Vec::new(alloc);
    let mut nodes = 0;
    let mut place = 0;
    for one in source {
        place += 1;
        let (clause, sum) = load_next(alloc, store, one, place, nodes)?;
        nodes = sum;
        clauses.push(clause)?;
    }
    Ok(clauses)
}

/// The canonical clauses of these source clauses, in their order, and the predicates of the program. A place stays empty
/// where nothing solves the equations of its clause. There are fewer than 2^32 source clauses, and each head and body
/// atom has fewer than 2^32 arguments.
///
/// # Errors
///
/// `Overflow` and `TooLarge` where a clause is refused, with the first such clause: `Nodes` where it brings the sizes of
/// the clauses so far above 8,388,608 together. `NoMemory` where there was not enough of it.
#[tactic(auto, unfolding(clause_model::specs::Load::load))]
pub fn load(alloc: Global, source: &[SourceClause]) -> Result<Loaded, LoadFault>
    requires formed { All IsWellFormed source.now }
    requires narrow { All IsNarrow source.now }
    requires few { length source.now < 2 ^ 32 }
    ensures ok { IfOk result (λ l. spec.load (map meaning_of source.now) ≡ Ok (program_of l)) }
    ensures stored { IfOk result (λ l. AreStored l.store l.clauses.items) }
    ensures refused { IfErr result (IsStopped (spec.load (map meaning_of source.now))) }
{
    let mut store = Store::new(alloc);
    let clauses = load_clauses(alloc, &mut store, source)?;
    let preds = predicates_of(alloc, source)?;
    Ok(Loaded {
        store,
        clauses,
        preds,
    })
}
