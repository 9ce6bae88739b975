//! A store of terms. Contracts see a store as the list of its trees, and a term as its place in that
//! list: `tree_at store term` is the tree of a term. Every call keeps the tree of every earlier term.
#![tactic(auto)]

mod fault;
mod store;
mod term;

pub use clp_model::Sort;
pub use fault::{NoMemory, TermFault};
pub use store::Store;
pub use term::{Look, Term};
