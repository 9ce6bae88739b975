//! Tests of printed names and rows: tables of cases written by hand.
#![tactic(auto)]

#[cfg(test)]
mod names;
#[cfg(test)]
mod rows;

/// Nothing: a library needs an item.
pub fn nothing() {}
