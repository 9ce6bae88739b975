ghost use Rattle.std.specs.Prelude.{◌≡◌, ◌<◌, ◌^◌, Result};
ghost use Rattle.token_model.specs.declared.fault.Fault.{Fault as F};
ghost use Rattle.token_model.specs.Parsers.{Gives};
ghost use Rattle.text_fault.specs.Places as spec;
ghost use Rattle.text_fault.specs.Tells.{Tells};

use crate::fault::{TextError, TextFault};
use token_model::{Fault, ReadError};

/// A fault with its place in a text of this length. Takes no memory.
pub fn placed(len: usize, fault: Fault) -> TextFault
    requires { len < 2 ^ 32 }
    ensures { result ≡ spec.placed len fault }
{
    TextFault {
        at: len.saturating_sub(fault.left) as u32,
        kind: fault.kind,
    }
}

/// What was read of a whole text of this length, or its fault with its place. Takes no memory.
pub fn told<T>(len: usize, read: Result<T, ReadError>) -> Result<T, TextError>
    requires { len < 2 ^ 32 }
    ensures { (outcome : Result T F) → Gives outcome read → Tells len outcome result }
{
    match read {
        Ok(value) => Ok(value),
        Err(ReadError::Fault(fault)) => Err(TextError::Fault(placed(len, fault))),
        Err(ReadError::NoMemory) => Err(TextError::NoMemory),
    }
}
