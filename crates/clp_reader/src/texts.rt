//! Whole texts, and clauses within them.

ghost use Rattle.std.specs.Prelude.{◌≡◌, ◌<◌, ◌≤◌, ◌^◌, length, All, IfOk};
ghost use Rattle.token_model.specs.Parsers.{Gives};
ghost use Rattle.text_fault.specs.Tells.{Tells};
ghost use Rattle.clp_grammar.specs.Grammar as spec;
ghost use Rattle.clause_loader.specs.WellFormed.{IsWellFormed, IsNarrow};

use crate::clauses::{clause, clauses};
use clause_store::SourceClause;
use clp_parser::{Ending, MAX_OPEN, Reader};
use sqlite_items::Items;
use std::alloc::Global;
use text_fault::{TextError, told};
use token_cursor::not_utf8;
use token_model::{Lexeme, ReadError};

/// The clauses of a program as `read_program` reads it; a fault is told by how many bytes of the text there are from it
/// on.
///
/// # Errors
///
/// `Fault` exactly where the text is no program, and `NoMemory` where there was not enough of it.
#[tactic(auto, unfolding(clp_grammar::specs::Grammar::program))]
pub fn read_clauses(alloc: Global, text: &[u8]) -> Result<Items<SourceClause>, ReadError>
    requires { length text.now < 2 ^ 32 }
    ensures { Gives (spec.program text.now) result }
{
    if let Some(fault) = not_utf8(text) {
        return Err(ReadError::Fault(fault));
    }
    clauses(alloc, &mut Reader::new(alloc, text))
}

/// The source clauses of a program, in their order; at most 4,096.
///
/// A program is clauses and directives, which are passed over, with white and comments between tokens as is wanted.
///
/// # Errors
///
/// `Fault` exactly where the text is no program, with the first fault and its place, and `NoMemory` where there was not
/// enough of it.
pub fn read_program(alloc: Global, text: &[u8]) -> Result<Items<SourceClause>, TextError>
    requires { length text.now < 2 ^ 32 }
    ensures reads { Tells (length text.now) (spec.program text.now) result }
    ensures formed { IfOk result (λ cs. All IsWellFormed cs) }
    ensures narrow { IfOk result (λ cs. All IsNarrow cs) }
    ensures few { IfOk result (λ cs. length cs ≤ 4096) }
{
    told(text.len(), read_clauses(alloc, text))
}

/// The one clause of a text, whose end may be missing.
#[tactic(auto, using(clp_parser::proofs::Inputs::refusal_before), unfolding(clp_grammar::specs::Grammar::goal_text))]
fn goal(alloc: Global, text: &[u8]) -> Result<SourceClause, ReadError>
    requires { length text.now < 2 ^ 32 }
    ensures { Gives (spec.goal_text text.now) result }
{
    if let Some(fault) = not_utf8(text) {
        return Err(ReadError::Fault(fault));
    }
    let mut reader = Reader::new(alloc, text);
    let found = clause(alloc, &mut reader, Ending::DotOrFinish)?;
    if reader.sees(Lexeme::Finish) {
        Ok(found)
    } else {
        Err(ReadError::Fault(reader.refusal(MAX_OPEN)))
    }
}

/// The one clause that a text is; its end may be missing.
///
/// # Errors
///
/// `Fault` exactly where the text is no clause, with the first fault and its place, and `NoMemory` where there was not
/// enough of it.
pub fn read_goal(alloc: Global, text: &[u8]) -> Result<SourceClause, TextError>
    requires { length text.now < 2 ^ 32 }
    ensures reads { Tells (length text.now) (spec.goal_text text.now) result }
    ensures formed { IfOk result IsWellFormed }
    ensures narrow { IfOk result IsNarrow }
{
    told(text.len(), goal(alloc, text))
}
