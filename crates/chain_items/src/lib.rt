//! Items of a chain of eliminations: rows that remember by which multipliers they came from the rows at the
//! start. A combination of two items is computed in 128 bits and divided by the joint divisor of its
//! coefficients, constant and multipliers, so that an item is exact or refused by `Overflow`.
#![tactic(auto)]

mod certificate;
mod combination;
mod eliminate;
mod item;
mod key;
mod merge;
mod reduce;

pub use clp_model::Rel;
pub use item::{Item, ItemFault};
