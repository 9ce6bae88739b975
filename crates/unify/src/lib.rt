//! Unification of terms of a store: `unify` finds the most general unifier of equations, in near-linear time whatever
//! they are, `matching` the substitution that makes targets of patterns, and `apply` puts the images of either into a
//! term.
#![tactic(auto)]

mod graph;
mod places;
mod reading;
mod unifying;

pub use substitution::{Subst, apply, matching};
pub use unifying::unify;
