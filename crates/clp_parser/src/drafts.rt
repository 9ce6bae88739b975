//! Clauses as they are parsed.

ghost use Rattle.token_model.specs.Parsers.{Reads};
ghost use Rattle.clp_grammar.specs.Drafts as spec;
ghost use Rattle.clp_parser.specs.Endings.{ending_of};

use crate::expressions::expression;
use crate::goals::goals;
use crate::reader::{MAX_OPEN, Reader};
use clp_grammar::{Draft, Goal};
use sqlite_items::Items;
use std::alloc::Global;
use token_model::{Lexeme, ReadError};

/// What ends a clause.
#[derive(Clone, Copy, Debug, PartialEq, Eq)]
pub enum Ending {
    /// A `.`
    Dot,
    /// A `.`, which may be missing at the end of the text.
    DotOrFinish,
}

/// What stands between the head of a clause and its end: `:-` and one or more goals, or nothing.
///
/// # Errors
///
/// `Fault` exactly where the text has a `:-` here and no goals after it, and `NoMemory` where there was not enough of it.
#[tactic(auto, unfolding(clp_grammar::specs::Drafts::body))]
pub fn body(alloc: Global, reader: &mut Reader<'_>) -> Result<Items<Goal>, ReadError>
    ensures { Reads (spec.body reader.old) result reader.new }
{
    if reader.eat(Lexeme::If) {
        goals(alloc, reader)
    } else {
        Ok(Items::new(alloc))
    }
}

#[tactic(auto, unfolding(clp_grammar::specs::Drafts::end_or_finish))]
fn end(reader: &mut Reader<'_>, ending: Ending) -> Result<(), ReadError>
    ensures { Reads (ending_of ending reader.old) result reader.new }
{
    match ending {
        Ending::DotOrFinish if reader.sees(Lexeme::Finish) => Ok(()),
        _ => reader.expect(MAX_OPEN, Lexeme::End),
    }
}

/// A clause up to and with its end.
///
/// # Errors
///
/// `Fault` exactly where the text has no clause here, and `NoMemory` where there was not enough of it.
#[tactic(auto, unfolding(clp_grammar::specs::Drafts::draft))]
pub fn draft(alloc: Global, reader: &mut Reader<'_>, ending: Ending) -> Result<Draft, ReadError>
    ensures { Reads (spec.draft (ending_of ending) reader.old) result reader.new }
{
    let head = expression(alloc, reader, MAX_OPEN)?;
    let goals = body(alloc, reader)?;
    end(reader, ending)?;
    Ok(Draft {
        head,
        goals,
        variables: reader.variables(),
    })
}
