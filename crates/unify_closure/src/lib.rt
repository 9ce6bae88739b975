//! Unification closure over a graph of terms: `solve` finds what stands for each node under the most general unifier of
//! equations between nodes, in near-linear time, or that there is none. Contracts see a graph through the trees that it
//! describes.
#![tactic(auto)]

mod choice;
mod classes;
mod closing;
mod node;
mod solving;
mod sorting;

pub use node::Node;
pub use solving::{Solved, solve};
