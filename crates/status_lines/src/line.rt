//! The lines, each with its line feed.

ghost use Rattle.std.specs.Prelude.{◌≡◌, ◌++◌, OnOk, IfOk, string_bytes, codes, decimal};
ghost use Rattle.status_lines.specs.Lines as spec;

use case_table::{Cases, RefusalWord};
use clause_loader::LoadFault;
use clp_model::Limit;
use itoa::Buffer;
use map_base::{limit_text, refusal_text};
use map_model::Refusal;
use replay_model::ReplayFault;
use std::alloc::Global;
use term_store::NoMemory;
use text_fault::{TextFault, kind_word};

/// A program has more bytes than it may have. Takes no memory.
#[tactic(auto, using(crate::proofs::Lengths::program_is_long))]
pub fn long_program_line() -> &'static str
    ensures { result.now ≡ spec.long_program_line }
{
    "bad program: longer than 1048576 bytes\n"
}

/// A script has more bytes than it may have. Takes no memory.
#[tactic(auto, using(crate::proofs::Lengths::script_is_long))]
pub fn long_script_line() -> &'static str
    ensures { result.now ≡ spec.long_script_line }
{
    "bad script: longer than 16777216 bytes\n"
}

/// Appends a text and a number.
fn push_number(before: &str, number: u32, into: &mut String) -> Result<(), NoMemory>
    ensures { OnOk result (string_bytes into.new ≡ string_bytes into.old ++ before.now ++ decimal number) }
{
    into.push_str(before)?;
    into.push_str(Buffer::new().format(number))?;
    Ok(())
}

/// The line of a fault of a text, after this beginning.
fn text_line(alloc: Global, beginning: &str, fault: TextFault) -> Result<String, NoMemory>
    ensures { IfOk result (λ line. string_bytes line ≡ spec.text_line beginning.now fault) }
{
    let mut line = String::from_str(alloc, beginning)?;
    push_number("byte ", fault.at, &mut line)?;
    line.push_str(": ")?;
    line.push_str(kind_word(fault.kind))?;
    line.push_str("\n")?;
    Ok(line)
}

/// The line of a clause of the program, counted from 1, that has a row out of range.
fn overflow_line(alloc: Global, clause: u32) -> Result<String, NoMemory>
    ensures { IfOk result (λ line. string_bytes line ≡ spec.overflow_line clause) }
{
    let mut line = String::from_str(alloc, "bad program: ")?;
    push_number("clause ", clause, &mut line)?;
    line.push_str(": ")?;
    line.push_str(RefusalWord::Overflow.word_of())?;
    line.push_str("\n")?;
    Ok(line)
}

/// The line of a clause of the program, counted from 1, that is past a limit.
fn too_large_line(alloc: Global, clause: u32, limit: Limit) -> Result<String, NoMemory>
    ensures { IfOk result (λ line. string_bytes line ≡ spec.too_large_line clause limit) }
{
    let mut line = String::from_str(alloc, "bad program: ")?;
    push_number("clause ", clause, &mut line)?;
    line.push_str(": ")?;
    line.push_str(RefusalWord::TooLarge.word_of())?;
    line.push_str(" ")?;
    line.push_str(limit_text(limit))?;
    line.push_str("\n")?;
    Ok(line)
}

/// The line of a refused step.
fn refused_line(alloc: Global, number: u32, refusal: &Refusal) -> Result<String, NoMemory>
    ensures { IfOk result (λ line. string_bytes line ≡ spec.refused_line number refusal.now) }
{
    let mut line = String::new(alloc);
    push_number("refused: step ", number, &mut line)?;
    line.push_str(": ")?;
    refusal_text(alloc, refusal, &mut line)?;
    line.push_str("\n")?;
    Ok(line)
}

/// The line that says why a script was not applied to a program. Want of memory has none: the line is empty then.
///
/// # Errors
///
/// Memory ran out.
pub fn fault_line(alloc: Global, fault: &ReplayFault) -> Result<String, NoMemory>
    ensures { IfOk result (λ line. string_bytes line ≡ spec.fault_line fault.now) }
{
    match fault {
        ReplayFault::Program(fault) => text_line(alloc, "bad program: ", *fault),
        ReplayFault::Load(LoadFault::Overflow(clause)) => overflow_line(alloc, *clause),
        ReplayFault::Load(LoadFault::TooLarge(clause, limit)) => {
            too_large_line(alloc, *clause, *limit)
        }
        ReplayFault::Script(fault) => text_line(alloc, "bad script: ", *fault),
        ReplayFault::Refused(number, refusal) => refused_line(alloc, *number, refusal),
        ReplayFault::Load(LoadFault::NoMemory) | ReplayFault::NoMemory => Ok(String::new(alloc)),
    }
}
