//! The predicates of a program.

ghost use Rattle.std.specs.Prelude.{◌≡◌, ◌<◌, ◌^◌, ◌∷◌, [], map, length, All, IfOk, OnOk};
ghost use Rattle.clp_model.specs.Trees.{arguments_of, IsApplication};
ghost use Rattle.clp_model.specs.Predicates.{predicate_of, clause_predicates, initial_predicates, same_predicate, with_element, distinct_after};
ghost use Rattle.clause_store.specs.Source.{meaning_of};
ghost use Rattle.clause_loader.specs.WellFormed.{IsNarrowAtom, IsNarrow};

use crate::found::Found;
use clause_store::{Pred, SourceClause, Tree};
use sqlite_items::Items;
use std::alloc::Global;
use term_store::NoMemory;

/// Puts the predicate of an atom last, unless it is there.
#[tactic(auto, using(clp_model::proofs::Trees::name_of_app, clp_model::proofs::Trees::arguments_of_app, clp_model::proofs::Trees::not_application_var, crate::proofs::Collecting::few_arguments))]
fn note(alloc: Global, found: &mut Found, atom: &Tree) -> Result<(), NoMemory>
    requires narrow { IsNarrowAtom atom.now }
    ensures { OnOk result (found.new ≡ with_element same_predicate found.old (predicate_of atom.now)) }
{
    let Tree::App(name, args) = atom else {
        unreachable!();
    };
    found.note(alloc, name.as_str(), args.len() as u32)
}

fn note_clause(alloc: Global, found: &mut Found, source: &SourceClause) -> Result<(), NoMemory>
    requires narrow { IsNarrow source.now }
    ensures { OnOk result (found.new ≡ distinct_after same_predicate found.old (clause_predicates (meaning_of source.now))) }
{
    note(alloc, found, &source.head)?;
    for atom in source.atoms.as_slice() {
        note(alloc, found, atom)?;
    }
    Ok(())
}

/// Each predicate of these clauses once, by first occurrence.
pub(crate) fn predicates_of(alloc: Global, source: &[SourceClause]) -> Result<Items<Pred>, NoMemory>
    requires narrow { All IsNarrow source.now }
    ensures { IfOk result (λ preds. preds ≡ initial_predicates (map meaning_of source.now)) }
{
    let mut found = Found::new(alloc);
    for clause in source {
        note_clause(alloc, &mut found, clause)?;
    }
    found.list(alloc)
}
