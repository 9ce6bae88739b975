ghost use Rattle.std.specs.Prelude.{◌≡◌, IfOk};

use crate::shown::{Shown, Shows};
use clause_store::SourceClause;
use clp_model::Pred;
use lin_row::Row;
use sqlite_items::Items;
use std::alloc::Global;
use term_store::NoMemory;

/// One step of a script. Ids are those of clauses, positions count the body atoms or the rows of a clause from 1, and
/// variables are those of the clause.
#[derive(Drop)]
pub enum Step {
    /// `define H :- B`: the clause is the definition of a fresh predicate, and joins the program.
    Define {
        source: SourceClause,
    },
    /// `unfold C at I`: a clause is replaced by its resolvents, at an atom of its body, with all live clauses.
    Unfold {
        id: u32,
        at: u32,
    },
    /// `fold C at [I,..] by P with [V,..] keep [J,..] show ..`: an atom of the defined predicate takes the place of
    /// atoms that are an instance of its definition's; `with` has the images of the variables that are in none of
    /// these, and the rows of the clause but those at the positions `keep` are dropped.
    Fold {
        id: u32,
        at: Items<u32>,
        by: Pred,
        with: Items<u32>,
        keep: Items<u32>,
        show: Shows,
    },
    /// `delete C false show ..`: a clause is removed whose rows have no common solution.
    DeleteFalse {
        id: u32,
        show: Shown,
    },
    /// `merge C at I,J`: the second of two equal atoms of a clause is removed.
    Merge {
        id: u32,
        first: u32,
        second: u32,
    },
    /// `add C row R show ..`: a row that the rows of a clause entail is put last.
    Add {
        id: u32,
        row: Row,
        show: Shown,
    },
    /// `drop C row I show ..`: a row that the others entail is removed.
    Drop {
        id: u32,
        row: u32,
        show: Shown,
    },
    /// `project C var V`: a variable that is in rows alone is eliminated from them.
    Project {
        id: u32,
        var: u32,
    },
    /// `equate C var V to U show ..`: a variable takes the place of one that the rows make equal to it.
    Equate {
        id: u32,
        var: u32,
        to: u32,
        show: Shown,
    },
}

/// An equal row.
fn copy_row(alloc: Global, row: &Row) -> Result<Row, NoMemory>
    ensures { IfOk result (λ copy. copy ≡ row.now) }
{
    match row.copy(alloc) {
        Ok(copy) => Ok(copy),
        Err(_) => Err(NoMemory),
    }
}

impl Step {
    /// An equal step.
    pub fn copy(&self, alloc: Global) -> Result<Step, NoMemory>
        ensures { IfOk result (λ step. step ≡ self.now) }
    {
        Ok(match self {
            Step::Define { source } => Step::Define {
                source: source.copy(alloc)?,
            },
            Step::Unfold { id, at } => Step::Unfold { id: *id, at: *at },
            Step::Fold {
                id,
                at,
                by,
                with,
                keep,
                show,
            } => Step::Fold {
                id: *id,
                at: Items::from_slice(alloc, at.as_slice())?,
                by: by.copy(alloc)?,
                with: Items::from_slice(alloc, with.as_slice())?,
                keep: Items::from_slice(alloc, keep.as_slice())?,
                show: show.copy(alloc)?,
            },
            Step::DeleteFalse { id, show } => Step::DeleteFalse {
                id: *id,
                show: show.copy(alloc)?,
            },
            Step::Merge { id, first, second } => Step::Merge {
                id: *id,
                first: *first,
                second: *second,
            },
            Step::Add { id, row, show } => Step::Add {
                id: *id,
                row: copy_row(alloc, row)?,
                show: show.copy(alloc)?,
            },
            Step::Drop { id, row, show } => Step::Drop {
                id: *id,
                row: *row,
                show: show.copy(alloc)?,
            },
            Step::Project { id, var } => Step::Project { id: *id, var: *var },
            Step::Equate { id, var, to, show } => Step::Equate {
                id: *id,
                var: *var,
                to: *to,
                show: show.copy(alloc)?,
            },
        })
    }
}
