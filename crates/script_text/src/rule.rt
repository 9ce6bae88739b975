//! The word that a step begins with, and its fields.

ghost use Rattle.std.specs.Prelude.{◌≡◌, IfSome};
ghost use Rattle.std.specs.Str.{IsUtf8};
ghost use Rattle.token_model.specs.Remaining as token;
ghost use Rattle.token_model.specs.Parsers.{Reads, ReadsExactly};
ghost use Rattle.script_grammar.specs.Script as spec;

use crate::certificate::shown;
use crate::field::{expect, number32, predicate, refusal, word};
use crate::list::{all_shown, numbers};
use case_table::{Cases, RuleWord};
use clp_parser::{Ending, Reader};
use clp_reader::clause;
use map_model::Step;
use row_reader::row_to_show;
use std::alloc::Global;
use token_model::{Fault, Kind, Lexeme, ReadError};

/// The text of bytes that are whole characters.
fn text_of(bytes: &[u8]) -> &str
    requires { IsUtf8 bytes.now }
    ensures { result.now ≡ bytes.now }
{
    match str::from_utf8(bytes) {
        Ok(text) => text,
        Err(_) => unreachable!(),
    }
}

/// The rule whose word comes next, which is then passed.
#[tactic(auto, unfolding(script_grammar::specs::Script::rule_ahead))]
fn take_rule(reader: &mut Reader<'_>) -> Option<RuleWord>
    ensures value { result ≡ spec.rule_ahead reader.old.remaining }
    ensures next { IfSome result (λ _. reader.new.remaining ≡ token.next reader.old.remaining) }
{
    if reader.sees(Lexeme::Name) {
        RuleWord::case_of(text_of(reader.take()))
    } else {
        None
    }
}

#[tactic(auto, unfolding(script_grammar::specs::Script::define_fields))]
fn define_fields(alloc: Global, reader: &mut Reader<'_>) -> Result<Step, ReadError>
    ensures { Reads (spec.define_fields reader.old.remaining) result reader.new.remaining }
{
    let source = clause(alloc, reader, Ending::Dot)?;
    Ok(Step::Define { source })
}

#[tactic(auto, unfolding(script_grammar::specs::Script::unfold_fields))]
fn unfold_fields(reader: &mut Reader<'_>) -> Result<Step, Fault>
    ensures { ReadsExactly (spec.unfold_fields reader.old.remaining) result reader.new.remaining }
{
    let id = number32(reader)?;
    word(reader, RuleWord::At)?;
    let at = number32(reader)?;
    expect(reader, Lexeme::End)?;
    Ok(Step::Unfold { id, at })
}

#[tactic(auto, unfolding(script_grammar::specs::Script::fold_fields))]
fn fold_fields(alloc: Global, reader: &mut Reader<'_>) -> Result<Step, ReadError>
    ensures { Reads (spec.fold_fields reader.old.remaining) result reader.new.remaining }
{
    let id = number32(reader)?;
    word(reader, RuleWord::At)?;
    let at = numbers(alloc, reader)?;
    word(reader, RuleWord::By)?;
    let by = predicate(alloc, reader)?;
    word(reader, RuleWord::With)?;
    let with = numbers(alloc, reader)?;
    word(reader, RuleWord::Keep)?;
    let keep = numbers(alloc, reader)?;
    word(reader, RuleWord::Show)?;
    let show = all_shown(alloc, reader)?;
    expect(reader, Lexeme::End)?;
    Ok(Step::Fold {
        id,
        at,
        by,
        with,
        keep,
        show,
    })
}

#[tactic(auto, unfolding(script_grammar::specs::Script::delete_fields))]
fn delete_fields(alloc: Global, reader: &mut Reader<'_>) -> Result<Step, ReadError>
    ensures { Reads (spec.delete_fields reader.old.remaining) result reader.new.remaining }
{
    let id = number32(reader)?;
    word(reader, RuleWord::False)?;
    word(reader, RuleWord::Show)?;
    let show = shown(alloc, reader)?;
    expect(reader, Lexeme::End)?;
    Ok(Step::DeleteFalse { id, show })
}

#[tactic(auto, unfolding(script_grammar::specs::Script::merge_fields))]
fn merge_fields(reader: &mut Reader<'_>) -> Result<Step, Fault>
    ensures { ReadsExactly (spec.merge_fields reader.old.remaining) result reader.new.remaining }
{
    let id = number32(reader)?;
    word(reader, RuleWord::At)?;
    let first = number32(reader)?;
    expect(reader, Lexeme::Comma)?;
    let second = number32(reader)?;
    expect(reader, Lexeme::End)?;
    Ok(Step::Merge { id, first, second })
}

#[tactic(auto, unfolding(script_grammar::specs::Script::add_fields))]
fn add_fields(alloc: Global, reader: &mut Reader<'_>) -> Result<Step, ReadError>
    ensures { Reads (spec.add_fields reader.old.remaining) result reader.new.remaining }
{
    let id = number32(reader)?;
    word(reader, RuleWord::Row)?;
    let row = row_to_show(alloc, reader)?;
    let show = shown(alloc, reader)?;
    expect(reader, Lexeme::End)?;
    Ok(Step::Add { id, row, show })
}

#[tactic(auto, unfolding(script_grammar::specs::Script::drop_fields))]
fn drop_fields(alloc: Global, reader: &mut Reader<'_>) -> Result<Step, ReadError>
    ensures { Reads (spec.drop_fields reader.old.remaining) result reader.new.remaining }
{
    let id = number32(reader)?;
    word(reader, RuleWord::Row)?;
    let row = number32(reader)?;
    word(reader, RuleWord::Show)?;
    let show = shown(alloc, reader)?;
    expect(reader, Lexeme::End)?;
    Ok(Step::Drop { id, row, show })
}

#[tactic(auto, unfolding(script_grammar::specs::Script::project_fields))]
fn project_fields(reader: &mut Reader<'_>) -> Result<Step, Fault>
    ensures { ReadsExactly (spec.project_fields reader.old.remaining) result reader.new.remaining }
{
    let id = number32(reader)?;
    word(reader, RuleWord::Var)?;
    let var = number32(reader)?;
    expect(reader, Lexeme::End)?;
    Ok(Step::Project { id, var })
}

#[tactic(auto, unfolding(script_grammar::specs::Script::equate_fields))]
fn equate_fields(alloc: Global, reader: &mut Reader<'_>) -> Result<Step, ReadError>
    ensures { Reads (spec.equate_fields reader.old.remaining) result reader.new.remaining }
{
    let id = number32(reader)?;
    word(reader, RuleWord::Var)?;
    let var = number32(reader)?;
    word(reader, RuleWord::To)?;
    let to = number32(reader)?;
    word(reader, RuleWord::Show)?;
    let show = shown(alloc, reader)?;
    expect(reader, Lexeme::End)?;
    Ok(Step::Equate { id, var, to, show })
}

/// The step that comes next, which is then passed.
#[tactic(auto, unfolding(script_grammar::specs::Script::step))]
pub fn step(alloc: Global, reader: &mut Reader<'_>) -> Result<Step, ReadError>
    ensures { Reads (spec.step reader.old.remaining) result reader.new.remaining }
{
    let refusal = refusal(reader);
    match take_rule(reader) {
        Some(RuleWord::Define) => define_fields(alloc, reader),
        Some(RuleWord::Unfold) => Ok(unfold_fields(reader)?),
        Some(RuleWord::Fold) => fold_fields(alloc, reader),
        Some(RuleWord::Delete) => delete_fields(alloc, reader),
        Some(RuleWord::Merge) => Ok(merge_fields(reader)?),
        Some(RuleWord::Add) => add_fields(alloc, reader),
        Some(RuleWord::Drop) => drop_fields(alloc, reader),
        Some(RuleWord::Project) => Ok(project_fields(reader)?),
        Some(RuleWord::Equate) => equate_fields(alloc, reader),
        _ => Err(ReadError::Fault(refusal)),
    }
}

/// Why no step may begin here, where there are as many as may be.
#[tactic(auto, unfolding(script_grammar::specs::Script::past_limit))]
pub fn past_limit(reader: &mut Reader<'_>) -> Fault
    ensures { result ≡ spec.past_limit reader.old.remaining }
{
    let too_many = reader.fail(Kind::TooMany);
    let refusal = refusal(reader);
    match take_rule(reader) {
        Some(
            RuleWord::Define
            | RuleWord::Unfold
            | RuleWord::Fold
            | RuleWord::Delete
            | RuleWord::Merge
            | RuleWord::Add
            | RuleWord::Drop
            | RuleWord::Project
            | RuleWord::Equate,
        ) => too_many,
        _ => refusal,
    }
}
