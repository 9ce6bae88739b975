ghost use Rattle.std.specs.Prelude.{◌≡◌};
ghost use Rattle.text_fault.specs.declared.fault.TextError.TheVariants.{Fault as fault, NoMemory as no_memory};

use std::alloc::{AllocError, AllocFailed};
use thiserror::Error;
use token_model::Kind;

/// What is wrong with a text, and its place: the number of bytes before it.
#[derive(Clone, Copy, Debug, PartialEq, Eq, Error)]
#[error("byte {at}: {kind:?}")]
pub struct TextFault {
    pub at: u32,
    pub kind: Kind,
}

/// Why nothing was read: the first fault of the text, or want of memory.
#[derive(Clone, Copy, Debug, PartialEq, Eq, Error)]
pub enum TextError {
    #[error("{0}")]
    Fault(TextFault),
    #[error("memory ran out")]
    NoMemory,
}

impl From<TextFault> for TextError {
    ghost from_gives = { λ f e. e ≡ fault f };

    fn from(f: TextFault) -> TextError {
        TextError::Fault(f)
    }
}

impl From<AllocError> for TextError {
    ghost from_gives = { λ _ e. e ≡ no_memory };

    fn from(_e: AllocError) -> TextError {
        TextError::NoMemory
    }
}

impl<T: Drop> From<AllocFailed<T>> for TextError {
    ghost from_gives = { λ _ e. e ≡ no_memory };

    fn from(_e: AllocFailed<T>) -> TextError {
        TextError::NoMemory
    }
}
