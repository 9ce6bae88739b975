//! Finds certificates: whether a row follows from rows, or rows have no common solution, by a chain of eliminations
//! (Gauss, and Fourier and Motzkin) of the rows and the negated target. Each item of the chain remembers by which
//! multipliers it came, so that the first false item gives a certificate by Farkas' lemma.
#![tactic(auto)]

mod begin;
mod chain;
mod fault;
mod kept;
mod questions;
mod turn;

pub use fault::FindFault;
pub use questions::{Found, find, find_false};
