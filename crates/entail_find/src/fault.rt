ghost use Rattle.std.specs.Prelude.{◌≡◌};
ghost use Rattle.entail_find.specs.declared.fault.FindFault.TheVariants.{NoMemory};

use chain_items::ItemFault;
use lin_row::RowFault;
use std::alloc::AllocError;

/// Why the chain came to no answer.
#[derive(Clone, Copy, Debug, PartialEq, Eq)]
pub enum FindFault {
    /// An item that a turn makes has a coefficient or constant above 2^63 - 1 or a multiplier above 2^56 - 1.
    Overflow,
    /// All items of a turn are in range, and it leaves more than 1,024.
    TooLong,
    NoMemory,
}

impl From<ItemFault> for FindFault {
    ghost use Rattle.std.specs.Prelude.{◌≡◌};
    ghost use Rattle.entail_find.specs.Answers.{of_item_fault};

    ghost from_gives = { λ f e. e ≡ of_item_fault f };

    fn from(fault: ItemFault) -> FindFault {
        match fault {
            ItemFault::Overflow => FindFault::Overflow,
            ItemFault::NoMemory => FindFault::NoMemory,
        }
    }
}

impl From<RowFault> for FindFault {
    ghost use Rattle.std.specs.Prelude.{◌≡◌};
    ghost use Rattle.entail_find.specs.Answers.{of_row_fault};

    ghost from_gives = { λ f e. e ≡ of_row_fault f };

    fn from(fault: RowFault) -> FindFault {
        match fault {
            RowFault::Overflow => FindFault::Overflow,
            RowFault::NoMemory => FindFault::NoMemory,
        }
    }
}

impl From<AllocError> for FindFault {
    ghost from_gives = { λ _ e. e ≡ NoMemory };

    fn from(_e: AllocError) -> FindFault {
        FindFault::NoMemory
    }
}
