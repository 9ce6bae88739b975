//! Tests of the top call and of the outside that it works on, through public calls. There is no other code
//! here: a test in the crate that it tests has that whole crate proved once more.
#![tactic(auto)]

#[cfg(test)]
mod calls;
#[cfg(test)]
mod folds;
#[cfg(test)]
mod outside;

/// Nothing: a library needs an item.
pub fn nothing() {}
