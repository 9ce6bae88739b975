ghost use Rattle.std.specs.Prelude.{◌≡◌, ◌≢◌, ◌<◌, pos, negsuc, IfOk};
ghost use Rattle.replace_model.specs.Rows.{equation_of};

use clause_store::Row;
use lin_row::Rel;
use std::alloc::Global;

/// The equation of the lesser of two variables minus the greater. It takes no memory.
pub(crate) fn equation(alloc: Global, var: u32, to: u32) -> Row
    requires { var ≢ to }
    ensures { result ≡ equation_of var to }
{
    if var < to {
        difference(alloc, var, to)
    } else {
        difference(alloc, to, var)
    }
}

/// The equation of the lesser variable minus the greater.
fn difference(alloc: Global, low: u32, high: u32) -> Row
    requires { low < high }
    ensures { result ≡ equation_of low high }
{
    match Row::make(alloc, Rel::Eq, &[(low, 1), (high, -1)], 0) {
        Ok(row) => row,
        Err(_) => unreachable!(),
    }
}
