//! Reads scripts and steps.

ghost use Rattle.std.specs.Prelude.{[], ◌<◌, ◌^◌, length};
ghost use Rattle.token_model.specs.Parsers.{Reads, ReadsExactly, Gives};
ghost use Rattle.text_fault.specs.Tells.{Tells};
ghost use Rattle.script_grammar.specs.Script as spec;

use crate::field::{expect, number_within, refusal, word_or};
use crate::rule::{past_limit, step};
use clp_parser::Reader;
use map_model::Step;
use sqlite_items::Items;
use std::alloc::Global;
use text_fault::{TextError, told};
use token_cursor::not_utf8;
use token_model::{Fault, Kind, Lexeme, ReadError};

/// How many steps a script may have.
const MAX_STEPS: usize = 100_000;

/// `map script 1.`
#[tactic(auto, unfolding(script_grammar::specs::Script::version_line))]
fn version_line(reader: &mut Reader<'_>) -> Result<(), Fault>
    ensures { ReadsExactly (spec.version_line reader.old.remaining) result reader.new.remaining }
{
    word_or(reader, Kind::NoVersion, "map")?;
    word_or(reader, Kind::NoVersion, "script")?;
    number_within(reader, 1, 1, Kind::Version)?;
    expect(reader, Lexeme::End)
}

/// At most so many steps, to the end of the text.
#[tactic(auto, unfolding(script_grammar::specs::Script::steps_from))]
fn steps(alloc: Global, reader: &mut Reader<'_>, count: usize) -> Result<Items<Step>, ReadError>
    ensures { Reads (spec.steps_from count [] reader.old.remaining) result reader.new.remaining }
{
    let mut found = Items::new(alloc);
    for _turn in 0..count {
        if reader.sees(Lexeme::Finish) {
            return Ok(found);
        }
        found.push(step(alloc, reader)?)?;
    }
    if reader.sees(Lexeme::Finish) {
        Ok(found)
    } else {
        Err(ReadError::Fault(past_limit(reader)))
    }
}

#[tactic(auto, unfolding(script_grammar::specs::Script::script))]
fn script(alloc: Global, text: &[u8]) -> Result<Items<Step>, ReadError>
    requires { length text.now < 2 ^ 32 }
    ensures { Gives (spec.script text.now) result }
{
    if let Some(fault) = not_utf8(text) {
        return Err(ReadError::Fault(fault));
    }
    let mut reader = Reader::new(alloc, text);
    version_line(&mut reader)?;
    steps(alloc, &mut reader, MAX_STEPS)
}

/// The steps of a script, in their order.
///
/// A script is the line of its version, `map script 1.`, and at most 100,000 steps, with white and comments between
/// tokens as is wanted.
///
/// # Errors
///
/// `Fault` exactly where the text is no script, with the first fault and its place, and `NoMemory` where there was not
/// enough of it.
pub fn read_script(alloc: Global, text: &[u8]) -> Result<Items<Step>, TextError>
    requires { length text.now < 2 ^ 32 }
    ensures { Tells (length text.now) (spec.script text.now) result }
{
    told(text.len(), script(alloc, text))
}

#[tactic(auto, unfolding(script_grammar::specs::Script::line))]
fn line(alloc: Global, text: &[u8]) -> Result<Option<Step>, ReadError>
    requires { length text.now < 2 ^ 32 }
    ensures { Gives (spec.line text.now) result }
{
    if let Some(fault) = not_utf8(text) {
        return Err(ReadError::Fault(fault));
    }
    let mut reader = Reader::new(alloc, text);
    if reader.sees(Lexeme::Finish) {
        return Ok(None);
    }
    let found = step(alloc, &mut reader)?;
    if reader.sees(Lexeme::Finish) {
        Ok(Some(found))
    } else {
        Err(ReadError::Fault(refusal(&reader)))
    }
}

/// The step that a line is, and None exactly for a line of white and comments.
///
/// # Errors
///
/// `Fault` exactly where the line is neither, with the first fault and its place, and `NoMemory` where there was not
/// enough of it.
pub fn read_step(alloc: Global, line: &[u8]) -> Result<Option<Step>, TextError>
    requires { length line.now < 2 ^ 32 }
    ensures { Tells (length line.now) (spec.line line.now) result }
{
    told(line.len(), crate::reader::line(alloc, line))
}
