//! Clauses within a text.

ghost use Rattle.std.specs.Prelude.{◌<◌, ◌^◌, length, IfOk, IsUtf8, IsCharBoundary};
ghost use Rattle.token_model.specs.Remaining as token;
ghost use Rattle.token_model.specs.Parsers.{Reads, Gives};
ghost use Rattle.text_fault.specs.Tells.{Tells};
ghost use Rattle.clp_grammar.specs.Grammar as spec;
ghost use Rattle.clause_loader.specs.WellFormed.{IsWellFormed, IsNarrow};
ghost use Rattle.clp_reader.specs.Behind as ends;

use clause_meaning::meaning;
use clause_store::SourceClause;
use clp_grammar::Draft;
use clp_parser::{MAX_OPEN, Reader, body, expression};
use std::alloc::Global;
use text_fault::{TextError, told};
use token_model::{Lexeme, ReadError};

/// Passes the end of a clause: how many bytes there are behind it.
#[tactic(auto, using(clp_parser::proofs::Inputs::refusal_before, crate::proofs::Ends::behind_token), unfolding(clp_grammar::specs::Input::expect))]
fn behind_end(reader: &mut Reader<'_>) -> Result<usize, ReadError>
    ensures { Reads (ends.behind_end reader.old) result reader.new }
{
    if !reader.sees(Lexeme::End) {
        return Err(ReadError::Fault(reader.refusal(MAX_OPEN)));
    }
    let left = reader.left();
    let end = reader.take();
    Ok(left.saturating_sub(end.len()))
}

/// A parsed clause with its end, and how many bytes there are behind it.
#[tactic(auto, unfolding(clp_grammar::specs::Drafts::draft))]
fn draft_and_behind(alloc: Global, reader: &mut Reader<'_>) -> Result<(Draft, usize), ReadError>
    ensures { Reads (ends.draft_and_behind reader.old) result reader.new }
{
    let head = expression(alloc, reader, MAX_OPEN)?;
    let goals = body(alloc, reader)?;
    let behind = behind_end(reader)?;
    let parsed = Draft {
        head,
        goals,
        variables: reader.variables(),
    };
    Ok((parsed, behind))
}

/// The first clause of a text with its end, and how many bytes there are behind it.
#[tactic(auto, unfolding(clp_grammar::specs::Grammar::clause_with))]
fn first_clause(alloc: Global, text: &[u8]) -> Result<(SourceClause, usize), ReadError>
    requires text { IsUtf8 text.now }
    requires small { length text.now < 2 ^ 32 }
    ensures { Gives (ends.clause_and_behind (token.whole text.now)) result }
{
    let mut reader = Reader::new(alloc, text);
    let (parsed, behind) = draft_and_behind(alloc, &mut reader)?;
    let found = meaning(alloc, &parsed)?;
    Ok((found, behind))
}

#[tactic(auto, unfolding(clp_grammar::specs::Grammar::clause_at))]
fn clause_from(alloc: Global, text: &str, at: u32) -> Result<(SourceClause, u32), ReadError>
    requires place { IsCharBoundary text.now at }
    requires small { length text.now < 2 ^ 32 }
    ensures { Gives (spec.clause_at text.now at) result }
{
    let rest = &text[at as usize..];
    let (found, behind) = first_clause(alloc, rest.as_bytes())?;
    let end = text.len().saturating_sub(behind) as u32;
    Ok((found, end))
}

/// The clause that stands at this byte, after white and comments, with its end, and the place after it. It may be
/// loaded. The place is at the beginning of a character, or at the end of the text.
///
/// # Errors
///
/// `Fault` exactly where no clause stands there, with the first fault and its place in the whole text, and `NoMemory`
/// where there was not enough of it.
pub fn clause_at(alloc: Global, text: &str, at: u32) -> Result<(SourceClause, u32), TextError>
    requires place { IsCharBoundary text.now at }
    requires small { length text.now < 2 ^ 32 }
    ensures reads { Tells (length text.now) (spec.clause_at text.now at) result }
    ensures formed { IfOk result (λ p. IsWellFormed p.0) }
    ensures narrow { IfOk result (λ p. IsNarrow p.0) }
{
    told(text.len(), clause_from(alloc, text, at))
}
