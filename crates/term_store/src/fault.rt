ghost use Rattle.std.specs.Prelude.{◌≡◌};
ghost use Rattle.term_store.specs.declared.fault.TermFault.TheVariants.{NoMemory};

use std::alloc::{AllocError, AllocFailed};

/// Memory ran out.
#[derive(Debug, Drop)]
pub struct NoMemory;

impl From<AllocError> for NoMemory {
    fn from(_e: AllocError) -> NoMemory {
        NoMemory
    }
}

impl<T: Drop> From<AllocFailed<T>> for NoMemory {
    fn from(_e: AllocFailed<T>) -> NoMemory {
        NoMemory
    }
}

/// Why an application was not made.
#[derive(Debug, Drop)]
pub enum TermFault {
    /// Its size exceeds 4,096 or its depth 256.
    TooLarge,
    NoMemory,
}

impl From<AllocError> for TermFault {
    ghost from_gives = { λ _ e. e ≡ NoMemory };

    fn from(_e: AllocError) -> TermFault {
        TermFault::NoMemory
    }
}

impl<T: Drop> From<AllocFailed<T>> for TermFault {
    ghost from_gives = { λ _ e. e ≡ NoMemory };

    fn from(_e: AllocFailed<T>) -> TermFault {
        TermFault::NoMemory
    }
}

impl From<NoMemory> for TermFault {
    ghost from_gives = { λ _ e. e ≡ NoMemory };

    fn from(_e: NoMemory) -> TermFault {
        TermFault::NoMemory
    }
}
