//! Tests of the replay of scripts through its public calls. There is no other code here: a test in the crate
//! that it tests has that whole crate proved once more.
#![tactic(auto)]

#[cfg(test)]
mod answers;
#[cfg(test)]
mod states;
#[cfg(test)]
mod texts;

/// Nothing: a library needs an item.
pub fn nothing() {}
