//! Tests of unfolding through the calls that apply steps: what the program is after some steps, or what refuses them,
//! over programs from texts. There is no other code here.
#![tactic(auto)]

#[cfg(test)]
mod building;
#[cfg(test)]
mod limits;
#[cfg(test)]
mod refusals;
#[cfg(test)]
mod resolvents;

/// Nothing: a library needs an item.
pub fn nothing() {}
