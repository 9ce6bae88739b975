ghost use Rattle.std.specs.Prelude.{◌≡◌, IfOk, ◌↔◌, IsTrue};
ghost use Rattle.std.specs.Str.{bytes_eq};

use crate::name::Name;
use std::alloc::{AllocError, Global};

/// A predicate: its name and its number of arguments, written `p/2`.
#[derive(Debug, Drop)]
pub struct Pred {
    pub name: Name,
    pub arity: u32,
}

impl Pred {
    /// An equal predicate.
    pub fn copy(&self, alloc: Global) -> Result<Pred, AllocError>
        ensures { IfOk result (λ p. p ≡ self.now) }
    {
        Ok(Pred {
            name: Name::copy_of(alloc, self.name.as_str())?,
            arity: self.arity,
        })
    }
}
