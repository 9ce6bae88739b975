//! Clauses as they are read.

ghost use Rattle.std.specs.Prelude.{◌≡◌, IfOk, All};
ghost use Rattle.lin_row.specs.Rows.{IsKept};

use crate::rows::copy_rows;
use clp_model::{Sort, Tree};
use lin_row::Row;
use sqlite_items::Items;
use std::alloc::{AllocError, Global};
use term_store::NoMemory;

/// A clause as it is read: its head, the equations between terms that it was written with, its rows, its body atoms,
/// and the sort of each variable. The head and the atoms are applications, variables are numbered from 1, variable
/// `n` has its sort at place `n` of `sorts`, and that of a variable of a row is `Num`.
#[derive(Drop)]
pub struct SourceClause {
    pub head: Tree,
    pub equations: Items<(Tree, Tree)>,
    pub rows: Items<Row>,
    pub atoms: Items<Tree>,
    pub sorts: Items<Sort>,
}

/// Equal equations.
fn copy_equations(
    alloc: Global,
    equations: &[(Tree, Tree)],
) -> Result<Items<(Tree, Tree)>, AllocError>
    ensures { IfOk result (λ copies. copies ≡ equations.now) }
{
    let mut copies = Items::new(alloc);
    for equation in equations {
        copies.push((equation.0.copy(alloc)?, equation.1.copy(alloc)?))?;
    }
    Ok(copies)
}

/// Equal trees.
fn copy_trees(alloc: Global, trees: &[Tree]) -> Result<Items<Tree>, AllocError>
    ensures { IfOk result (λ copies. copies ≡ trees.now) }
{
    let mut copies = Items::new(alloc);
    for tree in trees {
        copies.push(tree.copy(alloc)?)?;
    }
    Ok(copies)
}

impl SourceClause {
    /// An equal clause.
    pub fn copy(&self, alloc: Global) -> Result<SourceClause, NoMemory>
        ensures { IfOk result (λ c. c ≡ self.now) }
    {
        Ok(SourceClause {
            head: self.head.copy(alloc)?,
            equations: copy_equations(alloc, self.equations.as_slice())?,
            rows: copy_rows(alloc, self.rows.as_slice())?,
            atoms: copy_trees(alloc, self.atoms.as_slice())?,
            sorts: Items::from_slice(alloc, self.sorts.as_slice())?,
        })
    }
}
