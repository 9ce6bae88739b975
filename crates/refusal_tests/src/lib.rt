//! Tests of every condition of every step, on both sides: a step that is accepted with what it makes of the program, and
//! a step that is refused, after which the state is as it was. Programs and steps are read from their texts. There is no
//! other code here.
#![tactic(auto)]

#[cfg(test)]
mod added;
#[cfg(test)]
mod defined;
#[cfg(test)]
mod deleted;
#[cfg(test)]
mod dropped;
#[cfg(test)]
mod equated;
#[cfg(test)]
mod folded;
#[cfg(test)]
mod folded_after;
#[cfg(test)]
mod folded_rows;
#[cfg(test)]
mod merged;
#[cfg(test)]
mod projected;
#[cfg(test)]
mod stepping;
#[cfg(test)]
mod unfolded;

/// Nothing: a library needs an item.
pub fn nothing() {}
