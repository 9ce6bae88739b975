//! Resolvents of stored clauses: the atom at a place of a clause's body is unified with the head of another clause, whose
//! body and rows take its place (SLD resolution, with the rows of constraint logic programming carried along). What
//! solves the equation is carried out in the whole, and the clause is brought into canonical form.
#![tactic(auto)]

mod applying;
mod joining;
mod predicates;
mod raising;
mod resolving;
mod rows;

pub use resolving::resolvent;
