ghost use Rattle.std.specs.Prelude.{◌≡◌, IfOk};

use crate::sort::Sort;
use crate::tree::Tree;
use sqlite_items::Items;
use std::alloc::{AllocError, Global};

/// A clause as it is read: its head, its body atoms, and the sort of each variable.
/// The head and the atoms are applications, variables are numbered from 1,
/// and variable `n` has its sort at place `n` of `sorts`.
#[derive(Drop)]
pub struct SourceClause {
    pub head: Tree,
    pub atoms: Items<Tree>,
    pub sorts: Items<Sort>,
}

impl SourceClause {
    /// An equal clause.
    pub fn copy(&self, alloc: Global) -> Result<SourceClause, AllocError>
        ensures { IfOk result (λ c. c ≡ self.now) }
    {
        let mut atoms = Items::new(alloc);
        for atom in self.atoms.as_slice() {
            atoms.push(atom.copy(alloc)?)?;
        }
        Ok(SourceClause {
            head: self.head.copy(alloc)?,
            atoms,
            sorts: Items::from_slice(alloc, self.sorts.as_slice())?,
        })
    }
}
