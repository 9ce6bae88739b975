//! The row that stands at a place in a text.

ghost use Rattle.std.specs.Prelude.{◌≡◌, ◌≤◌, ◌<◌, ◌^◌, IsCharBoundary, length};
ghost use Rattle.token_model.specs.Parsers.{Gives};
ghost use Rattle.text_fault.specs.Tells.{Tells};
ghost use Rattle.row_reader.specs.Places as spec;

use crate::row::row_and_left;
use clp_parser::Reader;
use lin_row::Row;
use std::alloc::Global;
use text_fault::{TextError, told};
use token_model::ReadError;

#[tactic(auto, unfolding(crate::specs::Places::row_at))]
fn row(alloc: Global, text: &str, at: u32) -> Result<(Row, u32), ReadError>
    requires place { at ≤ length text.now }
    requires whole { IsCharBoundary text.now at }
    requires short { length text.now < 2 ^ 32 }
    ensures { Gives (spec.row_at text.now at) result }
{
    let mut reader = Reader::new(alloc, text[at as usize..].as_bytes());
    let (row, left) = row_and_left(alloc, &mut reader)?;
    Ok((row, text.len().saturating_sub(left) as u32))
}

/// The row of a step that adds one, from the byte `at` on, and the place of the word `show` that must follow. Its
/// variables are `V1`, `V2` and so on. What stands before `at` is not looked at.
///
/// # Errors
///
/// `Fault` exactly where no such row with `show` after it stands there, with the first fault and its place in the
/// whole text, and `NoMemory` where there was not enough of it.
pub fn row_at(alloc: Global, text: &str, at: u32) -> Result<(Row, u32), TextError>
    requires place { at ≤ length text.now }
    requires whole { IsCharBoundary text.now at }
    requires short { length text.now < 2 ^ 32 }
    ensures { Tells (length text.now) (spec.row_at text.now at) result }
{
    told(text.len(), row(alloc, text, at))
}
