//! The grammar of programs, read from the left with one token ahead, by its definitions in `specs/`, and the types that
//! these speak of: a clause as it was parsed, with the place of each expression and operator, and what it means as a
//! source clause.
#![tactic(auto)]

mod draft;
mod expression;
mod nature;
mod role;

pub use draft::{Comparison, Constraint, Draft, Goal, Relation};
pub use expression::{Expression, Head, Operation, Operator};
pub use nature::Nature;
pub use role::Role;
