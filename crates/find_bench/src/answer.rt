//! What the finder answers.

ghost use Rattle.find_bench.specs.Answers.{Tells};

use crate::families::Question;
use entail_find::{FindFault, Found, find};
use std::alloc::Global;

/// What a question was answered by.
#[derive(Clone, Copy, Debug, PartialEq, Eq)]
pub enum Answer {
    Unasked,
    Shown,
    NotEntailed,
    Overflow,
    TooLong,
    NoMemory,
    TooManyRows,
}

impl Answer {
    pub fn text(self) -> &'static str {
        match self {
            Answer::Unasked => "unasked",
            Answer::Shown => "shown",
            Answer::NotEntailed => "not entailed",
            Answer::Overflow => "overflow",
            Answer::TooLong => "too long",
            Answer::NoMemory => "out of memory",
            Answer::TooManyRows => "too many rows",
        }
    }
}

const MAX_ROWS: usize = 128;

/// The finder's answer.
#[tactic(auto, using(farkas_check::proofs::Rightness::right_entails))]
fn answered(alloc: Global, question: &Question) -> Answer
    ensures { Tells question.now.rows.items question.now.target result }
{
    let rows = question.rows.as_slice();
    if rows.len() > MAX_ROWS {
        return Answer::TooManyRows;
    }
    match find(alloc, rows, &question.target) {
        Ok(Found::Shown(_)) => Answer::Shown,
        Ok(Found::NotEntailed) => Answer::NotEntailed,
        Err(FindFault::Overflow) => Answer::Overflow,
        Err(FindFault::TooLong) => Answer::TooLong,
        Err(FindFault::NoMemory) => Answer::NoMemory,
    }
}

/// The last of so many answers.
pub fn answer_again(alloc: Global, question: &Question, repetitions: u32) -> Answer
    ensures { Tells question.now.rows.items question.now.target result }
{
    let mut last = Answer::Unasked;
    for _ in 0..repetitions {
        last = answered(alloc, question);
    }
    last
}
