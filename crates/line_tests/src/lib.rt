//! Tests of the lines of refusals and of refused texts, and of tables of words, through their public calls.
#![tactic(auto)]

#[cfg(test)]
mod places;
#[cfg(test)]
mod refusals;
#[cfg(test)]
mod words;

/// Nothing: a library needs an item.
pub fn nothing() {}
