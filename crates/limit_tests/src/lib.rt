//! Heavy tests that cross crates: the limits of loading, of steps and of a run on both sides. There is no other code here.
#![tactic(auto)]

#[cfg(test)]
mod answers;
#[cfg(test)]
mod loads;
#[cfg(test)]
mod nodes;
#[cfg(test)]
mod steps;

/// Nothing: a library needs an item.
pub fn nothing() {}
