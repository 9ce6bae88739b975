ghost use Rattle.std.specs.Prelude.{◌≡◌, IfOk, IfErr};
ghost use Rattle.lin_row.specs.declared.row.RowFault.TheVariants.{NoMemory};

use crate::part::Part;
use lin_row::RowFault;
use std::alloc::Global;

/// A certificate that a row follows from rows: one part for an inequality, and for an equation `L = 0` one part for
/// `L =< 0` and one for `-L =< 0`.
#[derive(Drop)]
pub enum Cert {
    One(Part),
    Two(Part, Part),
}

impl Cert {
    /// An equal certificate. Its one error is `NoMemory`.
    pub fn copy(&self, alloc: Global) -> Result<Cert, RowFault>
        ensures value { IfOk result (λ c. c ≡ self.now) }
        ensures fault { IfErr result (λ e. e ≡ NoMemory) }
    {
        match self {
            Cert::One(part) => Ok(Cert::One(part.copy(alloc)?)),
            Cert::Two(first, second) => Ok(Cert::Two(first.copy(alloc)?, second.copy(alloc)?)),
        }
    }
}
