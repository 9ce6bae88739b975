//! The rules by which a clause or an atom goes: `merge` removes the second of two equal atoms, and `delete_false` a clause
//! whose rows have no common solution. Each follows its definition, `merge_after` or `delete_false_after`, exactly. That
//! these steps keep what is provable is a law of its own, in another crate.
#![tactic(auto)]

mod deleting;
mod merging;

pub use deleting::delete_false;
pub use map_state::{Refusal, Shown, State, Step};
pub use merging::merge;
