//! The line of a refusal.

ghost use Rattle.std.specs.Prelude.{◌≡◌, ◌++◌, OnOk, OnErr, string_bytes, codes, decimal};
ghost use Rattle.map_base.specs.Refusals as spec;

use case_table::{Cases, FaultWord, LimitWord, RefusalWord};
use clause_store::name_text;
use clp_model::{Limit, Pred};
use farkas_check::CheckFault;
use itoa::Buffer;
use map_model::Refusal;
use std::alloc::Global;
use term_store::NoMemory;

/// The number that the line of a refusal begins with. Takes no memory.
pub fn refusal_number(refusal: &Refusal) -> u32
    ensures { result ≡ spec.refusal_number refusal.now }
{
    match refusal {
        Refusal::NoClause(_) => 1,
        Refusal::NoAtom(_) => 2,
        Refusal::NoRow(_) => 3,
        Refusal::RepeatedPosition(_) => 4,
        Refusal::NotFresh(_) => 5,
        Refusal::HeadNotVariables(_) => 6,
        Refusal::EmptyDefinition => 7,
        Refusal::RecursiveDefinition(_) => 8,
        Refusal::UnknownPredicate(_) => 9,
        Refusal::LooseVariable(_) => 10,
        Refusal::Unmarked(_) => 11,
        Refusal::NoDefinition(_) => 12,
        Refusal::NoMatch => 13,
        Refusal::BadWith(_) => 14,
        Refusal::LostVariable(_) => 15,
        Refusal::Unentailed(_) => 16,
        Refusal::BadMultipliers(_, _) => 17,
        Refusal::Satisfiable => 18,
        Refusal::StillUsed(_) => 20,
        Refusal::NotEqualAtoms(_, _) => 21,
        Refusal::NotNumber(_) => 22,
        Refusal::Overflow(_) => 23,
        Refusal::TooLarge(_) => 24,
        Refusal::NoMemory => 25,
    }
}

/// A refusal without its fields.
fn refusal_case(refusal: &Refusal) -> RefusalWord
    ensures { result ≡ spec.refusal_case refusal.now }
{
    match refusal {
        Refusal::NoClause(_) => RefusalWord::NoClause,
        Refusal::NoAtom(_) => RefusalWord::NoAtom,
        Refusal::NoRow(_) => RefusalWord::NoRow,
        Refusal::RepeatedPosition(_) => RefusalWord::RepeatedPosition,
        Refusal::NotFresh(_) => RefusalWord::NotFresh,
        Refusal::HeadNotVariables(_) => RefusalWord::HeadNotVariables,
        Refusal::EmptyDefinition => RefusalWord::EmptyDefinition,
        Refusal::RecursiveDefinition(_) => RefusalWord::RecursiveDefinition,
        Refusal::UnknownPredicate(_) => RefusalWord::UnknownPredicate,
        Refusal::LooseVariable(_) => RefusalWord::LooseVariable,
        Refusal::Unmarked(_) => RefusalWord::Unmarked,
        Refusal::NoDefinition(_) => RefusalWord::NoDefinition,
        Refusal::NoMatch => RefusalWord::NoMatch,
        Refusal::BadWith(_) => RefusalWord::BadWith,
        Refusal::LostVariable(_) => RefusalWord::LostVariable,
        Refusal::Unentailed(_) => RefusalWord::Unentailed,
        Refusal::BadMultipliers(_, _) => RefusalWord::BadMultipliers,
        Refusal::Satisfiable => RefusalWord::Satisfiable,
        Refusal::StillUsed(_) => RefusalWord::StillUsed,
        Refusal::NotEqualAtoms(_, _) => RefusalWord::NotEqualAtoms,
        Refusal::NotNumber(_) => RefusalWord::NotNumber,
        Refusal::Overflow(_) => RefusalWord::Overflow,
        Refusal::TooLarge(_) => RefusalWord::TooLarge,
        Refusal::NoMemory => RefusalWord::NoMemory,
    }
}

/// A limit as a case of the table of their words.
fn limit_case(limit: Limit) -> LimitWord
    ensures { result ≡ spec.limit_case limit }
{
    match limit {
        Limit::Shape => LimitWord::Shape,
        Limit::Atoms => LimitWord::Atoms,
        Limit::Variables => LimitWord::Variables,
        Limit::Rows => LimitWord::Rows,
        Limit::Clauses => LimitWord::Clauses,
        Limit::Nodes => LimitWord::Nodes,
        Limit::Steps => LimitWord::Steps,
        Limit::Chain => LimitWord::Chain,
    }
}

/// The word of a limit. Takes no memory.
pub fn limit_text(limit: Limit) -> &'static str
    ensures { result.now ≡ spec.limit_text limit }
{
    limit_case(limit).word_of()
}

/// A fault of a certificate as a case of the table of the words of faults.
fn check_case(fault: CheckFault) -> FaultWord
    ensures { result ≡ spec.check_case fault }
{
    match fault {
        CheckFault::Form => FaultWord::Form,
        CheckFault::Count => FaultWord::Count,
        CheckFault::Negative => FaultWord::Negative,
        CheckFault::NotConstant => FaultWord::NotConstant,
        CheckFault::WrongSign => FaultWord::WrongSign,
    }
}

fn push_number(number: u32, into: &mut String) -> Result<(), NoMemory>
    ensures { OnOk result (string_bytes into.new ≡ string_bytes into.old ++ codes " " ++ decimal number) }
{
    into.push_str(" ")?;
    into.push_str(Buffer::new().format(number))?;
    Ok(())
}

fn push_word(word: &str, into: &mut String) -> Result<(), NoMemory>
    ensures { OnOk result (string_bytes into.new ≡ string_bytes into.old ++ codes " " ++ word.now) }
{
    into.push_str(" ")?;
    into.push_str(word)?;
    Ok(())
}

fn push_pred(alloc: Global, pred: &Pred, into: &mut String) -> Result<(), NoMemory>
    ensures { OnOk result (string_bytes into.new ≡ string_bytes into.old ++ codes " " ++ spec.pred_text pred.now) }
{
    into.push_str(" ")?;
    name_text(alloc, pred.name.as_str(), into)?;
    into.push_str("/")?;
    into.push_str(Buffer::new().format(pred.arity))?;
    Ok(())
}

fn push_fields(alloc: Global, refusal: &Refusal, into: &mut String) -> Result<(), NoMemory>
    ensures { OnOk result (string_bytes into.new ≡ string_bytes into.old ++ spec.refusal_fields refusal.now) }
{
    match refusal {
        Refusal::NoClause(number)
        | Refusal::NoAtom(number)
        | Refusal::NoRow(number)
        | Refusal::RepeatedPosition(number)
        | Refusal::HeadNotVariables(number)
        | Refusal::LooseVariable(number)
        | Refusal::Unmarked(number)
        | Refusal::BadWith(number)
        | Refusal::LostVariable(number)
        | Refusal::Unentailed(number)
        | Refusal::StillUsed(number)
        | Refusal::NotNumber(number)
        | Refusal::Overflow(number) => push_number(*number, into),
        Refusal::NotFresh(pred)
        | Refusal::RecursiveDefinition(pred)
        | Refusal::UnknownPredicate(pred)
        | Refusal::NoDefinition(pred) => push_pred(alloc, pred, into),
        Refusal::BadMultipliers(place, fault) => {
            push_number(*place, into)?;
            push_word(check_case(*fault).word_of(), into)
        }
        Refusal::NotEqualAtoms(first, second) => {
            push_number(*first, into)?;
            push_number(*second, into)
        }
        Refusal::TooLarge(limit) => push_word(limit_text(*limit), into),
        Refusal::EmptyDefinition | Refusal::NoMatch | Refusal::Satisfiable | Refusal::NoMemory =>
            Ok(()),
    }
}

/// Appends the line of a refusal: its number, its words and its fields, with a space between them, and no line feed.
///
/// # Errors
///
/// Memory ran out: `into` is as before.
pub fn refusal_text(alloc: Global, refusal: &Refusal, into: &mut String) -> Result<(), NoMemory>
    ensures ok { OnOk result (string_bytes into.new ≡ string_bytes into.old ++ spec.refusal_line refusal.now) }
    ensures err { OnErr result (string_bytes into.new ≡ string_bytes into.old) }
{
    let mut text = String::new(alloc);
    text.push_str(Buffer::new().format(refusal_number(refusal)))?;
    text.push_str(" ")?;
    text.push_str(refusal_case(refusal).word_of())?;
    push_fields(alloc, refusal, &mut text)?;
    into.push_str(text.as_str())?;
    Ok(())
}
