//! The rule `define`.

ghost use Rattle.std.specs.Prelude.{◌≡◌, ◌⊎◌, ◌<◌, ◌∷◌, ◌++◌, [], Ok, Err, Some, None, OnOk, OnErr, IfOk, IfErr, length, false};
ghost use Rattle.map_model.specs.declared.refusal.Refusal.TheVariants.{NoMemory};
ghost use Rattle.clp_model.specs.Predicates.{predicate_of};
ghost use Rattle.clause_model.specs.Source.{source_of};
ghost use Rattle.clause_store.specs.Stored.{clause_in, IsStored};
ghost use Rattle.clause_loader.specs.WellFormed.{IsWellFormed};
ghost use Rattle.map_model.specs.Defining.{as_source, definition_broken, define_after, define_loaded};
ghost use Rattle.map_model.specs.Rewriting.{within_limits};
ghost use Rattle.map_state.specs.Seen.{state_of};
ghost use Rattle.map_state.specs.Changes.{IsChange, changed};

use crate::conditions::definition_broken;
use crate::predicate::pred_of;
use clause_loader::load_one;
use clause_source::source_of;
use clause_store::{Clause, SourceClause};
use map_state::{Change, Made, Refusal, State, Step, refusal_of, rewrite};
use sqlite_items::Items;
use std::alloc::Global;
use term_store::{NoMemory, Store};

/// `define H :- B`: a clause joins the program as the definition of the predicate of its head, unmarked, and is kept as
/// its definition for the whole run. The step is kept with the source of the loaded clause. Refused where the clause
/// isn't loaded (`Overflow(0)`, `TooLarge`, or `EmptyDefinition` where nothing solves its equations), and then by the
/// first condition that is broken: the predicate neither occurs in the program nor has a definition (`NotFresh`), the
/// head's arguments are variables, each another one (`HeadNotVariables`), there is an atom (`EmptyDefinition`), for each
/// atom in order its predicate has no definition and isn't the head's (`RecursiveDefinition`) and occurs in the program
/// (`UnknownPredicate`), and no variable is in the head alone or in rows alone (`LooseVariable`); then where a limit
/// would be past (`TooLarge`), or memory is wanting. The state then stays as it was. After Tamaki and Sato (1984).
pub fn define(state: &mut State, source: &SourceClause) -> Result<Step, Refusal>
    requires formed { IsWellFormed source.now }
    requires steps { length (state_of state.old).steps < 100000 }
    ensures accepted { OnOk result (define_after (state_of state.old) source.now ≡ Ok (state_of state.new)) }
    ensures filled { IfOk result (λ step. (state_of state.new).steps ≡ (state_of state.old).steps ++ step ∷ []) }
    ensures refused { IfErr result (λ e. (e ≡ Refusal.NoMemory) ⊎ (define_after (state_of state.old) source.now ≡ Err e)) }
    ensures unchanged { OnErr result (state_of state.new ≡ state_of state.old) }
{
    let change = prepare(state, source)?;
    rewrite(state, change)
}

/// What a definition changes, or its first broken condition.
fn prepare(state: &State, source: &SourceClause) -> Result<Change, Refusal>
    requires formed { IsWellFormed source.now }
    requires steps { length (state_of state.now).steps < 100000 }
    ensures accepted { IfOk result (λ change. define_after (state_of state.now) source.now ≡ within_limits (changed (state_of state.now) change)) }
    ensures change { IfOk result (λ change. IsChange (state_of state.now) change) }
    ensures refused { IfErr result (λ e. (e ≡ Refusal.NoMemory) ⊎ (define_after (state_of state.now) source.now ≡ Err e)) }
{
    let alloc = state.alloc();
    let mut scratch = Store::new(alloc);
    let clause = match load_one(alloc, &mut scratch, source) {
        Ok(Some(clause)) => clause,
        Ok(None) => return Err(Refusal::EmptyDefinition),
        Err(fault) => return Err(refusal_of(fault)),
    };
    if let Some(refusal) = definition_broken(state, &scratch, &clause)? {
        return Err(refusal);
    }
    Ok(defining(alloc, scratch, clause)?)
}

/// The change by which a clause joins as the definition of its predicate.
fn defining(alloc: Global, scratch: Store, clause: Clause) -> Result<Change, NoMemory>
    requires { IsStored scratch clause }
    ensures { IfOk result (λ change. change ≡ record {
      dead = [];
      made = record { clause = clause; mark = false; parents = [] } ∷ [];
      defines = Some (predicate_of (clause_in scratch clause).head);
      step = Step.Define (as_source (source_of (clause_in scratch clause)));
      scratch = scratch;
    }) }
{
    let pred = pred_of(alloc, &scratch, clause.head)?;
    let source = source_of(alloc, &scratch, &clause)?;
    let made = unmarked(alloc, clause)?;
    let mut change = Change::new(alloc, Step::Define { source }, scratch);
    change.made = made;
    change.defines = Some(pred);
    Ok(change)
}

/// The one new clause, which was made from none.
fn unmarked(alloc: Global, clause: Clause) -> Result<Items<Made>, NoMemory>
    ensures { IfOk result (λ made. made ≡ record { clause = clause; mark = false; parents = [] } ∷ []) }
{
    let mut made = Items::new(alloc);
    made.push(Made {
        clause,
        mark: false,
        parents: Items::new(alloc),
    })?;
    Ok(made)
}
