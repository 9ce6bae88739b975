//! The state of a run of rewriting steps. A step changes it by a `Change`: `reserve` finds all the memory that the
//! change takes, and `commit` then makes it, which can't fail; `rewrite` does both within the limits. Most rules change
//! one clause: `in_place` puts another one in its place. Contracts see a state through `state_of` as the state of the
//! definitions.
#![tactic(auto)]

mod change;
mod copying;
mod entry;
mod fault;
mod placing;
mod rewriting;
mod state;
mod totals;

pub use change::{Change, Definition, Made, Ready, Replacement};
pub use entry::Entry;
pub use fault::refusal_of;
pub use map_model::{Refusal, Shown, Step};
pub use placing::{in_place, removed};
pub use rewriting::rewrite;
pub use state::{State, same_pred};
