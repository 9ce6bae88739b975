//! Prints words, numbers and certificates.

ghost use Rattle.std.specs.Prelude.{◌≡◌, ◌++◌, OnOk, codes, map, string_bytes};
ghost use Rattle.std.specs.Fmt.{signed_decimal};
ghost use Rattle.print_model.specs.Joined.{joined};
ghost use Rattle.script_grammar.specs.ScriptText as spec;

use case_table::{Cases, RuleWord};
use farkas_check::{Cert, Part};
use itoa::Buffer;
use map_model::Shown;
use term_store::NoMemory;

/// Appends a space and a word of a step.
pub fn word(word: RuleWord, into: &mut String) -> Result<(), NoMemory>
    ensures { OnOk result (string_bytes into.new ≡ string_bytes into.old ++ spec.word_text word) }
{
    into.push_str(" ")?;
    into.push_str(word.word_of())?;
    Ok(())
}

fn multipliers(numbers: &[i64], into: &mut String) -> Result<(), NoMemory>
    ensures { OnOk result (string_bytes into.new ≡ string_bytes into.old ++ joined (codes ",") (codes ",") (map signed_decimal numbers.now)) }
{
    for number in numbers {
        into.push_str(",")?;
        into.push_str(Buffer::new().format(*number))?;
    }
    Ok(())
}

#[tactic(auto, using(std::proofs::lemmas::List::append_assoc))]
fn part(part: &Part, into: &mut String) -> Result<(), NoMemory>
    ensures { OnOk result (string_bytes into.new ≡ string_bytes into.old ++ spec.part_text part.now) }
{
    into.push_str("[")?;
    into.push_str(Buffer::new().format(part.k()))?;
    multipliers(part.multipliers(), into)?;
    into.push_str("]")?;
    Ok(())
}

#[tactic(auto, using(std::proofs::lemmas::List::append_assoc))]
pub fn certificate(certificate: &Cert, into: &mut String) -> Result<(), NoMemory>
    ensures { OnOk result (string_bytes into.new ≡ string_bytes into.old ++ spec.certificate_text certificate.now) }
{
    match certificate {
        Cert::One(only) => part(only, into),
        Cert::Two(first, second) => {
            part(first, into)?;
            into.push_str("/")?;
            part(second, into)
        }
    }
}

/// Appends `show` and what shows a row.
#[tactic(auto, using(std::proofs::lemmas::List::append_assoc))]
pub fn shown(show: &Shown, into: &mut String) -> Result<(), NoMemory>
    ensures { OnOk result (string_bytes into.new ≡ string_bytes into.old ++ spec.show_text show.now) }
{
    word(RuleWord::Show, into)?;
    match show {
        Shown::Find => word(RuleWord::Find, into),
        Shown::Given(given) => {
            into.push_str(" ")?;
            certificate(given, into)
        }
    }
}
