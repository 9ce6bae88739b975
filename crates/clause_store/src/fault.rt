ghost use Rattle.std.specs.Prelude.{◌≡◌};
ghost use Rattle.clause_store.specs.declared.fault.ClauseFault.TheVariants.{NoMemory};

use clp_model::Limit;
use lin_row::RowFault;
use std::alloc::AllocError;
use term_store::NoMemory;

/// Why a clause was not made.
#[derive(Debug, Drop)]
pub enum ClauseFault {
    /// The normal form of a row has a number of 2^63 or more in magnitude.
    Overflow,
    /// The first limit that it is past.
    TooLarge(Limit),
    NoMemory,
}

impl From<AllocError> for ClauseFault {
    ghost from_gives = { λ _ e. e ≡ NoMemory };

    fn from(_e: AllocError) -> ClauseFault {
        ClauseFault::NoMemory
    }
}

impl From<NoMemory> for ClauseFault {
    ghost from_gives = { λ _ e. e ≡ NoMemory };

    fn from(_e: NoMemory) -> ClauseFault {
        ClauseFault::NoMemory
    }
}

impl From<RowFault> for ClauseFault {
    ghost use Rattle.std.specs.Prelude.{◌≡◌};
    ghost use Rattle.clause_store.specs.Faults.{fault_of};

    ghost from_gives = { λ f e. e ≡ fault_of f };

    fn from(fault: RowFault) -> ClauseFault {
        match fault {
            RowFault::Overflow => ClauseFault::Overflow,
            RowFault::NoMemory => ClauseFault::NoMemory,
        }
    }
}
