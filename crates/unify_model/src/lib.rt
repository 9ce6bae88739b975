//! What every crate on unification speaks of: trees with a tree in each variable's place, equations between trees
//! and what makes them hold, the most general unifier, and one-sided matching. There are definitions in `specs/`
//! alone here.
#![tactic(auto)]
