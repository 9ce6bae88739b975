//! Tests of unification through its public calls: tables of small equations, and equations that are hard for a
//! textbook's algorithm. There is no other code here.
#![tactic(auto)]

#[cfg(test)]
mod families;
#[cfg(test)]
mod patterns;
#[cfg(test)]
mod shapes;
#[cfg(test)]
mod tables;

/// Nothing: a library needs an item.
pub fn nothing() {}
