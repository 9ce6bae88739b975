ghost use Rattle.std.specs.Prelude.{◌≡◌, IfOk};

use crate::name::Name;
use crate::sort::Sort;
use sqlite_items::Items;
use std::alloc::{AllocError, Global};

/// A variable of a stored term: its number and its sort.
#[derive(Clone, Copy, Debug, PartialEq, Eq)]
pub struct Variable {
    pub number: u32,
    pub sort: Sort,
}

/// A term: a variable, or a name applied to arguments (none for a constant).
/// In a source clause a variable is its number, from 1 on.
#[derive(Drop)]
pub enum Tree<V = u32> {
    Var(V),
    App(Name, Items<Tree<V>>),
}

impl Tree<u32> {
    /// An equal tree.
    pub fn copy(&self, alloc: Global) -> Result<Tree<u32>, AllocError>
        ensures { IfOk result (λ t. t ≡ self.now) }
    {
        match self {
            Tree::Var(number) => Ok(Tree::Var(*number)),
            Tree::App(name, args) => {
                let name = Name::copy_of(alloc, name.as_str())?;
                let mut copies = Items::new(alloc);
                for arg in args.as_slice() {
                    copies.push(arg.copy(alloc)?)?;
                }
                Ok(Tree::App(name, copies))
            }
        }
    }
}
