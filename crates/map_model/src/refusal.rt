ghost use Rattle.std.specs.Prelude.{◌≡◌};
ghost use Rattle.map_model.specs.declared.refusal.Refusal.TheVariants.{NoMemory};

use clp_model::{Limit, Pred};
use farkas_check::CheckFault;
use std::alloc::AllocError;
use term_store::NoMemory;

/// Why a step is refused: its first broken condition. Positions count from 1.
#[derive(Debug, Drop)]
pub enum Refusal {
    /// The clause with this id isn't live.
    NoClause(u32),
    /// The clause has no atom at this position.
    NoAtom(u32),
    /// The clause has no row at this position.
    NoRow(u32),
    /// This position, or this variable, is given twice.
    RepeatedPosition(u32),
    /// The predicate that is to be defined occurs in the program, or has a definition.
    NotFresh(Pred),
    /// The argument of the definition's head at this place is no variable, or is one that stands before.
    HeadNotVariables(u32),
    /// The definition has no atom, or nothing solves its equations.
    EmptyDefinition,
    /// This predicate of the definition's body is its own, or has a definition.
    RecursiveDefinition(Pred),
    /// This predicate neither occurs in the program nor has a definition.
    UnknownPredicate(Pred),
    /// The clause has no such variable; or the variable of a definition is in its head alone or in rows alone.
    LooseVariable(u32),
    /// The clause with this id is unmarked: it is a definition that wasn't unfolded.
    Unmarked(u32),
    /// The predicate has no definition.
    NoDefinition(Pred),
    /// The atoms at the positions are no instance of the definition's.
    NoMatch,
    /// The number at this place is not that of a Num variable of the clause; 0 where there are too many or too few.
    BadWith(u32),
    /// The image of this internal variable of the definition is not a variable of its own.
    LostVariable(u32),
    /// The row at this place among those to be shown isn't entailed.
    Unentailed(u32),
    /// The certificate at this place among the rows to be shown is wrong; at place 0, there are too many or too few.
    BadMultipliers(u32, CheckFault),
    /// The rows have a common solution.
    Satisfiable,
    /// The variable is in the head or in an atom.
    StillUsed(u32),
    /// The atoms at these positions aren't equal.
    NotEqualAtoms(u32, u32),
    /// The variable stands for any value, and not for a number.
    NotNumber(u32),
    /// A row that is made, or that the finder makes, is out of range; the place among the rows to be shown, or 0 for a row
    /// of a new clause.
    Overflow(u32),
    /// What is counted is past its limit.
    TooLarge(Limit),
    /// Memory ran out.
    NoMemory,
}

impl From<AllocError> for Refusal {
    ghost from_gives = { λ _ e. e ≡ NoMemory };

    fn from(_e: AllocError) -> Refusal {
        Refusal::NoMemory
    }
}

impl From<NoMemory> for Refusal {
    ghost from_gives = { λ _ e. e ≡ NoMemory };

    fn from(_e: NoMemory) -> Refusal {
        Refusal::NoMemory
    }
}
