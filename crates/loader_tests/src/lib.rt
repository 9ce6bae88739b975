//! Tests of loading, of sources and of variants through their public calls: tables of source clauses that are written
//! by hand. There is no other code here.
#![tactic(auto)]

#[cfg(test)]
mod formed;
#[cfg(test)]
mod limits;
#[cfg(test)]
mod loads;
#[cfg(test)]
mod nodes;
#[cfg(test)]
mod programs;
#[cfg(test)]
mod shapes;
#[cfg(test)]
mod variants;

/// Nothing: a library needs an item.
pub fn nothing() {}
