//! Certificates.

ghost use Rattle.std.specs.Prelude.{◌≡◌, ◌≤◌, IfOk, [], true, unsigned_abs};
ghost use Rattle.token_model.specs.Remaining as token;
ghost use Rattle.token_model.specs.Parsers.{Reads, ReadsExactly};
ghost use Rattle.linear_model.specs.Chain.{multiplier_limit, weights_within, part_of};
ghost use Rattle.script_grammar.specs.Certificates as spec;

use crate::field::{eat, expect, number_within, refusal, word};
use case_table::RuleWord;
use clp_parser::Reader;
use farkas_check::{Cert, Part};
use map_model::Shown;
use sqlite_items::Items;
use std::alloc::{AllocError, Global};
use token_model::{Fault, Kind, Lexeme, ReadError};

/// The greatest magnitude of a multiplier.
const LIMIT: u64 = 72_057_594_037_927_935;

#[tactic(auto, unfolding(script_grammar::specs::Certificates::multiplier))]
fn multiplier(reader: &mut Reader<'_>) -> Result<i64, Fault>
    ensures value { ReadsExactly (spec.multiplier reader.old.remaining) result reader.new.remaining }
    ensures within { IfOk result (λ m. unsigned_abs m ≤ multiplier_limit) }
{
    let is_negative = eat(reader, Lexeme::Minus);
    let magnitude = number_within(reader, 0, LIMIT, Kind::BadNumber)? as i64;
    Ok(if is_negative { -magnitude } else { magnitude })
}

/// One or more multipliers, with commas between.
#[tactic(auto, unfolding(script_grammar::specs::Certificates::multipliers_from))]
fn multipliers(alloc: Global, reader: &mut Reader<'_>) -> Result<Items<i64>, ReadError>
    ensures value { Reads (spec.multipliers_from (token.left reader.old.remaining) [] reader.old.remaining) result reader.new.remaining }
    ensures within { IfOk result (λ ms. weights_within ms ≡ true) }
{
    let mut found = Items::new(alloc);
    for _turn in 0..reader.left() {
        let number = multiplier(reader)?;
        found.push(number)?;
        if !eat(reader, Lexeme::Comma) {
            return Ok(found);
        }
    }
    Err(ReadError::Fault(refusal(reader)))
}

/// The part with these multipliers, of which the first is that of the target.
fn part_with(alloc: Global, numbers: &[i64]) -> Result<Part, AllocError>
    requires { weights_within numbers.now ≡ true }
    ensures { IfOk result (λ p. p ≡ part_of numbers.now) }
{
    let (k, m) = match numbers.split_first() {
        Some((k, m)) => (*k, Vec::from_slice(alloc, m)?),
        None => (0, Vec::new(alloc)),
    };
    match Part::make(k, m) {
        Ok(part) => Ok(part),
        Err(_) => unreachable!(),
    }
}

#[tactic(auto, unfolding(script_grammar::specs::Certificates::part))]
fn part(alloc: Global, reader: &mut Reader<'_>) -> Result<Part, ReadError>
    ensures { Reads (spec.part reader.old.remaining) result reader.new.remaining }
{
    expect(reader, Lexeme::OpenSquare)?;
    let found = multipliers(alloc, reader)?;
    expect(reader, Lexeme::CloseSquare)?;
    Ok(part_with(alloc, found.as_slice())?)
}

#[tactic(auto, unfolding(script_grammar::specs::Certificates::certificate))]
fn certificate(alloc: Global, reader: &mut Reader<'_>) -> Result<Cert, ReadError>
    ensures { Reads (spec.certificate reader.old.remaining) result reader.new.remaining }
{
    let first = part(alloc, reader)?;
    if eat(reader, Lexeme::Over) {
        Ok(Cert::Two(first, part(alloc, reader)?))
    } else {
        Ok(Cert::One(first))
    }
}

/// What shows a row: `find`, or a certificate.
#[tactic(auto, unfolding(script_grammar::specs::Certificates::shown))]
pub fn shown(alloc: Global, reader: &mut Reader<'_>) -> Result<Shown, ReadError>
    ensures { Reads (spec.shown reader.old.remaining) result reader.new.remaining }
{
    if reader.sees(Lexeme::Name) {
        word(reader, RuleWord::Find)?;
        Ok(Shown::Find)
    } else {
        Ok(Shown::Given(certificate(alloc, reader)?))
    }
}
