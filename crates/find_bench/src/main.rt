//! Asks the finder questions of known families, so that it can be timed: `find_bench FAMILY/SIZE/REPETITIONS ..`
//! makes for each word the rows and the target of the family in that size, asks so many times, and prints the last
//! answer in a line. The families are `chain`, `between` and `random`.
#![tactic(auto)]

mod answer;
mod asked;
mod draws;
mod families;

use crate::answer::answer_again;
use crate::asked::asked_in;
use crate::families::question_of;
use anyhow::{Result, bail};
use std::env;

fn main(rt: HostRuntime) -> Result<()> {
    for word in env::args(&rt)?.skip(1) {
        let Some(asked) = asked_in(word.as_str()) else {
            bail!("no FAMILY/SIZE/REPETITIONS: {word}");
        };
        let Ok(question) = question_of(rt.alloc(), asked.family, asked.size) else {
            bail!("no room for the rows of {word}");
        };
        let answer = answer_again(rt.alloc(), &question, asked.repetitions);
        let family = asked.family.name();
        let size = asked.size;
        let text = answer.text();
        println!(rt; "{family} {size}: {text}")?;
    }
    Ok(())
}
