//! Lists in square brackets.

ghost use Rattle.std.specs.Prelude.{[]};
ghost use Rattle.token_model.specs.Remaining as token;
ghost use Rattle.token_model.specs.Parsers.{Reads};
ghost use Rattle.script_grammar.specs.Fields as spec;
ghost use Rattle.script_grammar.specs.Certificates as certificates;

use crate::certificate::shown;
use crate::field::{eat, expect, number32, refusal, word};
use case_table::RuleWord;
use clp_parser::Reader;
use map_model::{Shown, Shows};
use sqlite_items::Items;
use std::alloc::Global;
use token_model::{Lexeme, ReadError};

/// One or more numbers, with commas between.
#[tactic(auto, unfolding(script_grammar::specs::Fields::listed_from))]
fn some_numbers(alloc: Global, reader: &mut Reader<'_>) -> Result<Items<u32>, ReadError>
    ensures { Reads (spec.listed_from spec.number32 (token.left reader.old.remaining) [] reader.old.remaining) result reader.new.remaining }
{
    let mut found = Items::new(alloc);
    for _turn in 0..reader.left() {
        found.push(number32(reader)?)?;
        if !eat(reader, Lexeme::Comma) {
            return Ok(found);
        }
    }
    Err(ReadError::Fault(refusal(reader)))
}

/// Numbers in square brackets.
#[tactic(auto, unfolding(script_grammar::specs::Fields::listed, script_grammar::specs::Fields::listed_by))]
pub fn numbers(alloc: Global, reader: &mut Reader<'_>) -> Result<Items<u32>, ReadError>
    ensures { Reads (spec.listed spec.number32 reader.old.remaining) result reader.new.remaining }
{
    expect(reader, Lexeme::OpenSquare)?;
    if eat(reader, Lexeme::CloseSquare) {
        return Ok(Items::new(alloc));
    }
    let found = some_numbers(alloc, reader)?;
    expect(reader, Lexeme::CloseSquare)?;
    Ok(found)
}

/// What shows each of one row or more, with commas between.
#[tactic(auto, unfolding(script_grammar::specs::Fields::listed_from))]
fn some_shown(alloc: Global, reader: &mut Reader<'_>) -> Result<Items<Shown>, ReadError>
    ensures { Reads (spec.listed_from certificates.shown (token.left reader.old.remaining) [] reader.old.remaining) result reader.new.remaining }
{
    let mut found = Items::new(alloc);
    for _turn in 0..reader.left() {
        found.push(shown(alloc, reader)?)?;
        if !eat(reader, Lexeme::Comma) {
            return Ok(found);
        }
    }
    Err(ReadError::Fault(refusal(reader)))
}

/// What shows each of several rows, in square brackets.
#[tactic(auto, unfolding(script_grammar::specs::Fields::listed, script_grammar::specs::Fields::listed_by))]
fn shown_list(alloc: Global, reader: &mut Reader<'_>) -> Result<Items<Shown>, ReadError>
    ensures { Reads (spec.listed certificates.shown reader.old.remaining) result reader.new.remaining }
{
    expect(reader, Lexeme::OpenSquare)?;
    if eat(reader, Lexeme::CloseSquare) {
        return Ok(Items::new(alloc));
    }
    let found = some_shown(alloc, reader)?;
    expect(reader, Lexeme::CloseSquare)?;
    Ok(found)
}

/// What shows several rows: `find`, or a list of what shows each.
#[tactic(auto, unfolding(script_grammar::specs::Certificates::all_shown))]
pub fn all_shown(alloc: Global, reader: &mut Reader<'_>) -> Result<Shows, ReadError>
    ensures { Reads (certificates.all_shown reader.old.remaining) result reader.new.remaining }
{
    if reader.sees(Lexeme::Name) {
        word(reader, RuleWord::Find)?;
        Ok(Shows::Find)
    } else {
        Ok(Shows::Each(shown_list(alloc, reader)?))
    }
}
