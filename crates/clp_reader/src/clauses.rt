//! Clauses one after another.

ghost use Rattle.std.specs.Prelude.{◌≡◌, []};
ghost use Rattle.token_model.specs.Parsers.{Reads, Gives};
ghost use Rattle.token_model.specs.Remaining.{left};
ghost use Rattle.clp_grammar.specs.Grammar as spec;
ghost use Rattle.clp_parser.specs.Endings.{ending_of};

use clause_meaning::meaning;
use clause_store::SourceClause;
use clp_parser::{Ending, MAX_OPEN, Reader, directive, draft};
use sqlite_items::Items;
use std::alloc::Global;
use token_model::{Fault, Kind, Lexeme, ReadError};

/// How many clauses a program may have.
const MAX_CLAUSES: usize = 4096;

/// The clause that comes next, up to and with what ends it.
///
/// # Errors
///
/// `Fault` exactly where the text has no clause here, and `NoMemory` where there was not enough of it.
#[tactic(auto, unfolding(clp_grammar::specs::Grammar::clause_with))]
pub fn clause(
    alloc: Global,
    reader: &mut Reader<'_>,
    ending: Ending,
) -> Result<SourceClause, ReadError>
    ensures { Reads (spec.clause_with (ending_of ending) reader.old.remaining) result reader.new.remaining }
{
    reader.start_clause(alloc);
    let parsed = draft(alloc, reader, ending)?;
    meaning(alloc, &parsed)
}

/// Whether a clause begins with such a token.
fn begins_clause(lexeme: Lexeme) -> bool
    ensures { result ≡ spec.begins_clause lexeme }
{
    match lexeme {
        Lexeme::Name
        | Lexeme::Quoted
        | Lexeme::Variable
        | Lexeme::Number
        | Lexeme::OpenRound
        | Lexeme::OpenSquare
        | Lexeme::Plus
        | Lexeme::Minus => true,
        _ => false,
    }
}

/// Why no clause may begin here, after as many as there may be.
#[tactic(auto, using(clp_parser::proofs::Inputs::refusal_before), unfolding(clp_grammar::specs::Grammar::past_limit))]
fn past_limit(reader: &Reader<'_>) -> Fault
    ensures { result ≡ spec.past_limit reader.now.remaining }
{
    if begins_clause(reader.peek()) {
        reader.fail(Kind::TooMany)
    } else {
        reader.refusal(MAX_OPEN)
    }
}

/// One clause more than these.
#[tactic(auto, unfolding(clp_grammar::specs::Grammar::next_clause))]
fn next_clause(
    alloc: Global,
    found: &Items<SourceClause>,
    reader: &mut Reader<'_>,
) -> Result<SourceClause, ReadError>
    ensures { Reads (spec.next_clause found.now reader.old.remaining) result reader.new.remaining }
{
    if found.len() < MAX_CLAUSES {
        clause(alloc, reader, Ending::Dot)
    } else {
        Err(ReadError::Fault(past_limit(reader)))
    }
}

/// The clauses to the end of the text; directives are passed over.
#[tactic(auto, using(crate::proofs::Turns::ends, crate::proofs::Turns::passes, crate::proofs::Turns::reads), unfolding(clp_grammar::specs::Grammar::clauses_from))]
pub(crate) fn clauses(
    alloc: Global,
    reader: &mut Reader<'_>,
) -> Result<Items<SourceClause>, ReadError>
    ensures { Gives (spec.clauses_from (left reader.old.remaining) [] reader.old.remaining) result }
{
    let mut found = Items::new(alloc);
    for _turn in 0..reader.left() {
        if reader.sees(Lexeme::Finish) {
            return Ok(found);
        }
        if reader.sees(Lexeme::If) {
            directive(reader)?;
        } else {
            found.push(next_clause(alloc, &found, reader)?)?;
        }
    }
    Ok(found)
}
