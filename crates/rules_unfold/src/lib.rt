//! The rules `define`, by which a clause joins a program as the definition of a fresh predicate, and `unfold`, by which
//! a clause gives way to its resolvents, at an atom of its body, with all live clauses. They follow the definitions
//! `define_after` and `unfold_after` exactly. That both keep what is provable are laws of their own, in another crate.
#![tactic(auto)]

mod conditions;
mod defining;
mod predicate;
mod resolving;
mod unfolding;

pub use defining::define;
pub use map_state::{Refusal, State, Step};
pub use unfolding::unfold;
