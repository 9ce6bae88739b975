//! Tests of the tokens of programs and scripts, through the public calls of `token_cursor` and `token_at`. There is no
//! other code here: a test in the crate that it tests has that whole crate proved once more.
#![tactic(auto)]

#[cfg(test)]
mod places;
#[cfg(test)]
mod tokens;

/// Nothing: a library needs an item.
pub fn nothing() {}
