//! Prints predicates and lists in square brackets.

ghost use Rattle.std.specs.Prelude.{◌≡◌, ◌++◌, OnOk, codes, decimal, map, string_bytes};
ghost use Rattle.print_model.specs.Joined.{joined};
ghost use Rattle.script_grammar.specs.ScriptText as spec;

use crate::certificate::{certificate, word};
use case_table::{Cases, RuleWord};
use clause_printer::name_text;
use clp_model::Pred;
use itoa::Buffer;
use map_model::{Shown, Shows};
use term_store::NoMemory;

/// Appends a predicate's name, `/` and how many arguments it has.
#[tactic(auto, using(std::proofs::lemmas::List::append_assoc))]
pub fn predicate(predicate: &Pred, into: &mut String) -> Result<(), NoMemory>
    ensures { OnOk result (string_bytes into.new ≡ string_bytes into.old ++ spec.predicate_text predicate.now) }
{
    name_text(predicate.name.as_str(), into)?;
    into.push_str("/")?;
    into.push_str(Buffer::new().format(predicate.arity))?;
    Ok(())
}

fn later_numbers(numbers: &[u32], into: &mut String) -> Result<(), NoMemory>
    ensures { OnOk result (string_bytes into.new ≡ string_bytes into.old ++ joined (codes ",") (codes ",") (map decimal numbers.now)) }
{
    for number in numbers {
        into.push_str(",")?;
        into.push_str(Buffer::new().format(*number))?;
    }
    Ok(())
}

/// Appends numbers in square brackets.
#[tactic(auto, using(std::proofs::lemmas::List::append_assoc))]
fn number_list(numbers: &[u32], into: &mut String) -> Result<(), NoMemory>
    ensures { OnOk result (string_bytes into.new ≡ string_bytes into.old ++ spec.list_text (map decimal numbers.now)) }
{
    let Some((first, rest)) = numbers.split_first() else {
        into.push_str("[]")?;
        return Ok(());
    };
    into.push_str("[")?;
    into.push_str(Buffer::new().format(*first))?;
    later_numbers(rest, into)?;
    into.push_str("]")?;
    Ok(())
}

/// Appends a space, and numbers in square brackets.
#[tactic(auto, using(std::proofs::lemmas::List::append_assoc))]
pub fn fields(numbers: &[u32], into: &mut String) -> Result<(), NoMemory>
    ensures { OnOk result (string_bytes into.new ≡ string_bytes into.old ++ spec.fields_text numbers.now) }
{
    into.push_str(" ")?;
    number_list(numbers, into)
}

/// Appends what shows one of several rows.
fn one_shown(show: &Shown, into: &mut String) -> Result<(), NoMemory>
    ensures { OnOk result (string_bytes into.new ≡ string_bytes into.old ++ spec.shown_text show.now) }
{
    match show {
        Shown::Find => Ok(into.push_str(RuleWord::Find.word_of())?),
        Shown::Given(given) => certificate(given, into),
    }
}

#[tactic(auto, using(std::proofs::lemmas::List::append_assoc))]
fn later_shown(ways: &[Shown], into: &mut String) -> Result<(), NoMemory>
    ensures { OnOk result (string_bytes into.new ≡ string_bytes into.old ++ joined (codes ",") (codes ",") (map spec.shown_text ways.now)) }
{
    for way in ways {
        into.push_str(",")?;
        one_shown(way, into)?;
    }
    Ok(())
}

/// Appends what shows each of several rows, in square brackets.
#[tactic(auto, using(std::proofs::lemmas::List::append_assoc))]
fn shown_list(ways: &[Shown], into: &mut String) -> Result<(), NoMemory>
    ensures { OnOk result (string_bytes into.new ≡ string_bytes into.old ++ spec.list_text (map spec.shown_text ways.now)) }
{
    let Some((first, rest)) = ways.split_first() else {
        into.push_str("[]")?;
        return Ok(());
    };
    into.push_str("[")?;
    one_shown(first, into)?;
    later_shown(rest, into)?;
    into.push_str("]")?;
    Ok(())
}

/// Appends `show` and what shows several rows.
#[tactic(auto, using(std::proofs::lemmas::List::append_assoc))]
pub fn all_shown(show: &Shows, into: &mut String) -> Result<(), NoMemory>
    ensures { OnOk result (string_bytes into.new ≡ string_bytes into.old ++ spec.all_shown_text show.now) }
{
    word(RuleWord::Show, into)?;
    match show {
        Shows::Find => word(RuleWord::Find, into),
        Shows::Each(ways) => {
            into.push_str(" ")?;
            shown_list(ways.as_slice(), into)
        }
    }
}
