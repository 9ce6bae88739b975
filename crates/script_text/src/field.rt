//! The words, marks and numbers of a script.

ghost use Rattle.std.specs.Prelude.{◌≡◌, ◌≤◌, IfOk, true};
ghost use Rattle.token_model.specs.Remaining as token;
ghost use Rattle.token_model.specs.Parsers.{Reads, ReadsExactly};
ghost use Rattle.clp_parser.specs.Readable.{is_whole};
ghost use Rattle.script_grammar.specs.Fields as spec;

use case_table::{Cases, RuleWord};
use clp_model::{Name, Pred};
use clp_parser::{MAX_OPEN, Reader};
use std::alloc::Global;
use token_model::{Fault, Kind, Lexeme, ReadError};

/// The greatest id, position and number of a variable.
const MAX_FIELD: u64 = 4_294_967_295;

/// Why no rule goes on here.
#[tactic(auto, unfolding(clp_grammar::specs::Input::refusal))]
pub fn refusal(reader: &Reader<'_>) -> Fault
    ensures { result ≡ token.refusal reader.now.remaining }
{
    reader.refusal(MAX_OPEN)
}

/// Passes such a token.
#[tactic(auto, unfolding(token_model::specs::Remaining::expect))]
pub fn expect(reader: &mut Reader<'_>, wanted: Lexeme) -> Result<(), Fault>
    requires { is_whole wanted ≡ true }
    ensures { ReadsExactly (token.expect wanted reader.old.remaining) result reader.new.remaining }
{
    if reader.sees(wanted) {
        reader.pass();
        Ok(())
    } else {
        Err(refusal(reader))
    }
}

/// Whether such a token comes next, which is then passed.
#[tactic(auto, unfolding(token_model::specs::Remaining::after))]
pub fn eat(reader: &mut Reader<'_>, wanted: Lexeme) -> bool
    requires { is_whole wanted ≡ true }
    ensures { ReadsExactly (token.eat wanted reader.old.remaining) (Ok result) reader.new.remaining }
{
    let found = reader.sees(wanted);
    if found {
        reader.pass();
    }
    found
}

/// The fault of the next token, or one of this kind where it has none of its own.
#[tactic(auto, unfolding(script_grammar::specs::Fields::refusal_as, token_model::specs::Remaining::refusal, token_model::specs::Remaining::fault_at))]
fn refusal_as(reader: &Reader<'_>, other: Kind) -> Fault
    ensures { result ≡ spec.refusal_as other reader.now.remaining }
{
    let own = refusal(reader);
    match own.kind {
        Kind::Unexpected => reader.fail(other),
        _ => own,
    }
}

/// Passes this word, which is not quoted; another token is a fault of this kind, where it has none of its own.
#[tactic(auto, unfolding(script_grammar::specs::Fields::word_or, script_grammar::specs::Fields::sees_word))]
pub fn word_or(reader: &mut Reader<'_>, other: Kind, wanted: &str) -> Result<(), Fault>
    ensures { ReadsExactly (spec.word_or other wanted.now reader.old.remaining) result reader.new.remaining }
{
    let refusal = refusal_as(reader, other);
    if reader.sees(Lexeme::Name) && reader.take() == wanted.as_bytes() {
        Ok(())
    } else {
        Err(refusal)
    }
}

/// Passes a word of a step.
pub fn word(reader: &mut Reader<'_>, wanted: RuleWord) -> Result<(), Fault>
    ensures { ReadsExactly (spec.word wanted reader.old.remaining) result reader.new.remaining }
{
    word_or(reader, Kind::Unexpected, wanted.word_of())
}

/// Passes a number from `low` to `high`; another number is a fault of this kind.
#[tactic(auto, unfolding(script_grammar::specs::Fields::number_within))]
pub fn number_within(
    reader: &mut Reader<'_>,
    low: u64,
    high: u64,
    other: Kind,
) -> Result<u64, Fault>
    ensures value { ReadsExactly (spec.number_within low high other reader.old.remaining) result reader.new.remaining }
    ensures within { IfOk result (λ n. n ≤ high) }
{
    if !reader.sees(Lexeme::Number) {
        return Err(refusal(reader));
    }
    let outside = reader.fail(other);
    let number = reader.number();
    if low <= number && number <= high {
        Ok(number)
    } else {
        Err(outside)
    }
}

/// Passes an id, a position or the number of a variable.
pub fn number32(reader: &mut Reader<'_>) -> Result<u32, Fault>
    ensures { ReadsExactly (spec.number32 reader.old.remaining) result reader.new.remaining }
{
    let number = number_within(reader, 0, MAX_FIELD, Kind::BadNumber)?;
    Ok(number as u32)
}

/// Passes a name, plain or quoted.
#[tactic(auto, unfolding(script_grammar::specs::Fields::name))]
fn name(alloc: Global, reader: &mut Reader<'_>) -> Result<Name, ReadError>
    ensures { Reads (spec.name reader.old.remaining) result reader.new.remaining }
{
    if reader.sees(Lexeme::Name) || reader.sees(Lexeme::Quoted) {
        reader.name(alloc)
    } else {
        Err(ReadError::Fault(refusal(reader)))
    }
}

/// Passes a predicate: its name, and how many arguments it has.
#[tactic(auto, unfolding(script_grammar::specs::Fields::predicate))]
pub fn predicate(alloc: Global, reader: &mut Reader<'_>) -> Result<Pred, ReadError>
    ensures { Reads (spec.predicate reader.old.remaining) result reader.new.remaining }
{
    let name = name(alloc, reader)?;
    expect(reader, Lexeme::Over)?;
    let arity = number32(reader)?;
    Ok(Pred { name, arity })
}
