//! Tests of linear forms through their public calls. There is no other code here: a test in the crate that it tests
//! has that whole crate proved once more.
#![tactic(auto)]

#[cfg(test)]
mod rows;

/// Nothing: a library needs an item.
pub fn nothing() {}
