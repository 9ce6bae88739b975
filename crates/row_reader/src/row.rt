//! The row of a step that adds one.

ghost use Rattle.std.specs.Prelude.{◌≡◌, IfOk, OnOk};
ghost use Rattle.token_model.specs.Remaining as token;
ghost use Rattle.token_model.specs.Parsers.{Reads, ReadsExactly, Gives};
ghost use Rattle.row_grammar.specs.Row as spec;
ghost use Rattle.row_reader.specs.Places.{from_show, first};

use crate::variable::{sides_fault, variable_numbers};
use clause_meaning::row_of;
use clp_grammar::Comparison;
use clp_parser::{MAX_OPEN, Reader, comparison};
use lin_row::Row;
use std::alloc::Global;
use token_model::{Fault, Lexeme, ReadError};

/// Passes the word `show`, which is not quoted.
#[tactic(auto, unfolding(row_grammar::specs::Row::show_word))]
fn show_word(reader: &mut Reader<'_>) -> Result<(), Fault>
    ensures reads { ReadsExactly (spec.show_word reader.old) result reader.new }
    ensures place { OnOk result (token.left reader.old.remaining ≡ from_show reader.new.remaining) }
{
    let refusal = reader.refusal(MAX_OPEN);
    if reader.sees(Lexeme::Name) && reader.take() == b"show".as_slice() {
        Ok(())
    } else {
        Err(refusal)
    }
}

/// A relation with the word `show` after it, and how many bytes there are from that word on.
#[tactic(auto, unfolding(row_grammar::specs::Row::compared_to_show))]
fn compared_to_show(
    alloc: Global,
    reader: &mut Reader<'_>,
) -> Result<(Comparison, usize), ReadError>
    ensures reads { Reads (spec.compared_to_show reader.old) (first result) reader.new }
    ensures place { IfOk result (λ p. p.1 ≡ from_show reader.new.remaining) }
{
    let found = comparison(alloc, reader, MAX_OPEN)?;
    let left = reader.left();
    show_word(reader)?;
    Ok((found, left))
}

/// The row of a relation, where names have these numbers.
#[tactic(auto, unfolding(row_grammar::specs::Row::row_over))]
fn row_over(alloc: Global, numbers: &[u32], c: &Comparison) -> Result<Row, ReadError>
    ensures { Gives (spec.row_over numbers.now c.now) result }
{
    match sides_fault(numbers, c) {
        Some(fault) => Err(ReadError::Fault(fault)),
        None => row_of(alloc, numbers, c),
    }
}

/// The row that comes next, and how many bytes there are from the word `show` after it on.
#[tactic(auto, unfolding(row_grammar::specs::Row::row_to_show))]
pub fn row_and_left(alloc: Global, reader: &mut Reader<'_>) -> Result<(Row, usize), ReadError>
    ensures reads { Reads (spec.row_to_show reader.old.remaining) (first result) reader.new.remaining }
    ensures place { IfOk result (λ p. p.1 ≡ from_show reader.new.remaining) }
{
    reader.start_clause(alloc);
    let (found, left) = compared_to_show(alloc, reader)?;
    let numbers = variable_numbers(alloc, reader.names())?;
    Ok((row_over(alloc, &numbers, &found)?, left))
}

/// The row that comes next, up to and with the word `show` after it. Tokens and grammar come first; then each variable
/// is `V` and a number from 1 to 4,294,967,295 without leading zeros; then the row is evaluated, as in braces.
///
/// # Errors
///
/// `Fault` exactly where the text has no such row here, and `NoMemory` where there was not enough of it.
pub fn row_to_show(alloc: Global, reader: &mut Reader<'_>) -> Result<Row, ReadError>
    ensures { Reads (spec.row_to_show reader.old.remaining) result reader.new.remaining }
{
    let (row, _left) = row_and_left(alloc, reader)?;
    Ok(row)
}
