//! Tests of matching and of the substitutions that it gives, through their public calls. There is no other code here: a
//! test in the crate that it tests has that whole crate proved once more.
#![tactic(auto)]

#[cfg(test)]
mod board;
#[cfg(test)]
mod matches;

/// Nothing: a library needs an item.
pub fn nothing() {}
