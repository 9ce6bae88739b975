//! Tests of the finder through its public calls. There is no other code here: a test in the crate that it tests
//! has that whole crate proved once more.
#![tactic(auto)]

#[cfg(test)]
mod answers;
#[cfg(test)]
mod grids;

/// Nothing: a library needs an item.
pub fn nothing() {}
