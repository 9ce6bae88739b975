//! What is wrong with a text, and where.

ghost use Rattle.std.specs.Prelude.{◌≡◌};
ghost use Rattle.token_model.specs.declared.fault.ReadError.TheVariants.{Fault as fault, NoMemory as no_memory};

use std::alloc::{AllocError, AllocFailed};

/// What is wrong with a text.
#[derive(Clone, Copy, Debug, PartialEq, Eq)]
pub enum Kind {
    /// A byte belongs to no whole character.
    NotUtf8,
    /// A byte begins no token, or a comment, a quoted name or a number that is none.
    BadToken,
    /// A number, or a result of arithmetic, is out of range.
    NumberTooLarge,
    /// A name or a variable has more than 255 bytes.
    NameTooLong,
    /// A bracket opens, or a comma stands in a list, where 256 are open.
    TooDeep,
    /// A token of the language that MAP leaves out.
    Unsupported,
    /// The grammar has no case for a token.
    Unexpected,
    /// The text ends before it is complete.
    UnexpectedEnd,
    /// A head or a goal is no atom.
    NotAnAtom,
    /// A head is a word that has a meaning of its own.
    Reserved,
    /// An expression is not linear.
    NotLinear,
    /// A number is divided by 0.
    ZeroDivisor,
    /// There is one clause or step more than may be.
    TooMany,
    /// A script doesn't begin with its version line.
    NoVersion,
    /// A script's version is unknown.
    Version,
    /// A variable of a row that is added isn't `V` and a number.
    BadVariable,
    /// An id, a position, a number of arguments or a multiplier is out of range.
    BadNumber,
}

/// What is wrong, and how many bytes there are from its place to the end of the text.
#[derive(Clone, Copy, Debug, PartialEq, Eq)]
pub struct Fault {
    pub left: usize,
    pub kind: Kind,
}

/// Why nothing was read: the first fault of the text, or want of memory.
#[derive(Debug, Drop)]
pub enum ReadError {
    Fault(Fault),
    NoMemory,
}

impl From<Fault> for ReadError {
    ghost from_gives = { λ f e. e ≡ fault f };

    fn from(f: Fault) -> ReadError {
        ReadError::Fault(f)
    }
}

impl From<AllocError> for ReadError {
    ghost from_gives = { λ _ e. e ≡ no_memory };

    fn from(_e: AllocError) -> ReadError {
        ReadError::NoMemory
    }
}

impl<T: Drop> From<AllocFailed<T>> for ReadError {
    ghost from_gives = { λ _ e. e ≡ no_memory };

    fn from(_e: AllocFailed<T>) -> ReadError {
        ReadError::NoMemory
    }
}
