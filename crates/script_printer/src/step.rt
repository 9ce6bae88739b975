//! Prints steps and scripts.

ghost use Rattle.std.specs.Prelude.{◌≡◌, ◌++◌, OnOk, OnErr, string_bytes, codes};
ghost use Rattle.script_grammar.specs.ScriptText as spec;
ghost use Rattle.case_table.specs.Rules.{rule_word};
ghost use Rattle.case_table.specs.declared.rule_word.RuleWord.TheVariants as rule;
ghost use Rattle.map_model.specs.declared.step.Step.TheVariants as step;

use crate::certificate::{shown, word};
use crate::list::{all_shown, fields, predicate};
use case_table::{Cases, RuleWord};
use clause_printer::print_row;
use clause_store::{Row, SourceClause};
use clp_model::Pred;
use itoa::Buffer;
use map_model::{Shown, Shows, Step};
use term_store::NoMemory;

/// Appends a space and a number.
fn field(number: u32, into: &mut String) -> Result<(), NoMemory>
    ensures { OnOk result (string_bytes into.new ≡ string_bytes into.old ++ spec.field_text number) }
{
    into.push_str(" ")?;
    into.push_str(Buffer::new().format(number))?;
    Ok(())
}

/// Appends the word that a step begins with, and a clause's id.
#[tactic(auto, using(std::proofs::lemmas::List::append_assoc))]
fn rule(rule: RuleWord, id: u32, into: &mut String) -> Result<(), NoMemory>
    ensures { OnOk result (string_bytes into.new ≡ string_bytes into.old ++ (rule_word rule ++ spec.field_text id)) }
{
    into.push_str(rule.word_of())?;
    field(id, into)
}

/// Appends a word with a number behind it.
#[tactic(auto, using(std::proofs::lemmas::List::append_assoc))]
fn named(name: RuleWord, number: u32, into: &mut String) -> Result<(), NoMemory>
    ensures { OnOk result (string_bytes into.new ≡ string_bytes into.old ++ (spec.word_text name ++ spec.field_text number)) }
{
    word(name, into)?;
    field(number, into)
}

/// Appends a word with numbers in square brackets behind it.
#[tactic(auto, using(std::proofs::lemmas::List::append_assoc))]
fn listed(name: RuleWord, numbers: &[u32], into: &mut String) -> Result<(), NoMemory>
    ensures { OnOk result (string_bytes into.new ≡ string_bytes into.old ++ (spec.word_text name ++ spec.fields_text numbers.now)) }
{
    word(name, into)?;
    fields(numbers, into)
}

#[tactic(auto, using(std::proofs::lemmas::List::append_assoc), unfolding(script_grammar::specs::ScriptText::words_text))]
fn define(source: &SourceClause, into: &mut String) -> Result<(), NoMemory>
    ensures { OnOk result (string_bytes into.new ≡ string_bytes into.old ++ spec.words_text (step.Define source.now)) }
{
    into.push_str(RuleWord::Define.word_of())?;
    into.push_str(" ")?;
    crate::source::source(source, into)
}

/// Appends which definition folds, and the variables and rows that a fold names.
#[tactic(auto, using(std::proofs::lemmas::List::append_assoc))]
fn definition(by: &Pred, with: &[u32], keep: &[u32], into: &mut String) -> Result<(), NoMemory>
    ensures { OnOk result (string_bytes into.new ≡ string_bytes into.old ++ (spec.word_text rule.By ++ (codes " " ++ (spec.predicate_text by.now ++ (spec.word_text rule.With ++ (spec.fields_text with.now ++ (spec.word_text rule.Keep ++ spec.fields_text keep.now))))))) }
{
    word(RuleWord::By, into)?;
    into.push_str(" ")?;
    predicate(by, into)?;
    listed(RuleWord::With, with, into)?;
    listed(RuleWord::Keep, keep, into)
}

#[tactic(auto, using(std::proofs::lemmas::List::append_assoc), unfolding(script_grammar::specs::ScriptText::words_text))]
fn fold(
    id: u32,
    at: &[u32],
    by: &Pred,
    with: &[u32],
    keep: &[u32],
    show: &Shows,
    into: &mut String,
) -> Result<(), NoMemory>
    ensures { OnOk result (string_bytes into.new ≡ string_bytes into.old ++ spec.words_text (step.Fold id at.now by.now with.now keep.now show.now)) }
{
    rule(RuleWord::Fold, id, into)?;
    listed(RuleWord::At, at, into)?;
    definition(by, with, keep, into)?;
    all_shown(show, into)
}

#[tactic(auto, using(std::proofs::lemmas::List::append_assoc), unfolding(script_grammar::specs::ScriptText::words_text))]
fn merge(id: u32, first: u32, second: u32, into: &mut String) -> Result<(), NoMemory>
    ensures { OnOk result (string_bytes into.new ≡ string_bytes into.old ++ spec.words_text (step.Merge id first second)) }
{
    rule(RuleWord::Merge, id, into)?;
    named(RuleWord::At, first, into)?;
    into.push_str(",")?;
    into.push_str(Buffer::new().format(second))?;
    Ok(())
}

#[tactic(auto, using(std::proofs::lemmas::List::append_assoc), unfolding(script_grammar::specs::ScriptText::words_text))]
fn add(id: u32, row: &Row, show: &Shown, into: &mut String) -> Result<(), NoMemory>
    ensures { OnOk result (string_bytes into.new ≡ string_bytes into.old ++ spec.words_text (step.Add id row.now show.now)) }
{
    rule(RuleWord::Add, id, into)?;
    word(RuleWord::Row, into)?;
    into.push_str(" ")?;
    print_row(row, into)?;
    shown(show, into)
}

#[tactic(auto, using(std::proofs::lemmas::List::append_assoc), unfolding(script_grammar::specs::ScriptText::words_text))]
fn equate(id: u32, var: u32, to: u32, show: &Shown, into: &mut String) -> Result<(), NoMemory>
    ensures { OnOk result (string_bytes into.new ≡ string_bytes into.old ++ spec.words_text (step.Equate id var to show.now)) }
{
    rule(RuleWord::Equate, id, into)?;
    named(RuleWord::Var, var, into)?;
    named(RuleWord::To, to, into)?;
    shown(show, into)
}

/// Appends the words and the fields of a step; after an error some of them may be there.
#[tactic(auto, using(std::proofs::lemmas::List::append_assoc), unfolding(script_grammar::specs::ScriptText::words_text))]
fn words(step: &Step, into: &mut String) -> Result<(), NoMemory>
    ensures { OnOk result (string_bytes into.new ≡ string_bytes into.old ++ spec.words_text step.now) }
{
    match step {
        Step::Define { source } => define(source, into),
        Step::Unfold { id, at } => {
            rule(RuleWord::Unfold, *id, into)?;
            named(RuleWord::At, *at, into)
        }
        Step::Fold {
            id,
            at,
            by,
            with,
            keep,
            show,
        } => fold(
            *id,
            at.as_slice(),
            by,
            with.as_slice(),
            keep.as_slice(),
            show,
            into,
        ),
        Step::DeleteFalse { id, show } => {
            rule(RuleWord::Delete, *id, into)?;
            word(RuleWord::False, into)?;
            shown(show, into)
        }
        Step::Merge { id, first, second } => merge(*id, *first, *second, into),
        Step::Add { id, row, show } => add(*id, row, show, into),
        Step::Drop { id, row, show } => {
            rule(RuleWord::Drop, *id, into)?;
            named(RuleWord::Row, *row, into)?;
            shown(show, into)
        }
        Step::Project { id, var } => {
            rule(RuleWord::Project, *id, into)?;
            named(RuleWord::Var, *var, into)
        }
        Step::Equate { id, var, to, show } => equate(*id, *var, *to, show, into),
    }
}

#[tactic(auto, using(std::proofs::lemmas::List::append_assoc))]
fn step(step: &Step, into: &mut String) -> Result<(), NoMemory>
    ensures { OnOk result (string_bytes into.new ≡ string_bytes into.old ++ spec.step_text step.now) }
{
    words(step, into)?;
    into.push_str(".")?;
    Ok(())
}

/// Appends a step, which ends with `.`.
///
/// # Errors
///
/// Memory ran out: `into` is as before.
pub fn print_step(step: &Step, into: &mut String) -> Result<(), NoMemory>
    ensures ok { OnOk result (string_bytes into.new ≡ string_bytes into.old ++ spec.step_text step.now) }
    ensures err { OnErr result (string_bytes into.new ≡ string_bytes into.old) }
{
    let mut text = String::new(*into.allocator());
    crate::step::step(step, &mut text)?;
    into.push_str(text.as_str())?;
    Ok(())
}

/// Appends a line for each step.
#[tactic(auto, using(std::proofs::lemmas::List::append_assoc), unfolding(script_grammar::specs::ScriptText::steps_text))]
fn lines(steps: &[Step], into: &mut String) -> Result<(), NoMemory>
    ensures { OnOk result (string_bytes into.new ≡ string_bytes into.old ++ spec.steps_text steps.now) }
{
    for one in steps {
        step(one, into)?;
        into.push_str("\n")?;
    }
    Ok(())
}

/// Appends a script: the line of its version, and a line for each step.
///
/// # Errors
///
/// Memory ran out: `into` is as before.
#[tactic(auto, using(std::proofs::lemmas::List::append_assoc), unfolding(script_grammar::specs::ScriptText::script_text))]
pub fn print_script(steps: &[Step], into: &mut String) -> Result<(), NoMemory>
    ensures ok { OnOk result (string_bytes into.new ≡ string_bytes into.old ++ spec.script_text steps.now) }
    ensures err { OnErr result (string_bytes into.new ≡ string_bytes into.old) }
{
    let mut text = String::new(*into.allocator());
    text.push_str("map script 1.\n")?;
    lines(steps, &mut text)?;
    into.push_str(text.as_str())?;
    Ok(())
}
