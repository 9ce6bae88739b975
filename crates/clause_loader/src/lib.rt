//! Loading of source clauses: the equations of each are solved, what solves them is carried out in its head, rows and
//! body atoms, and the clause is brought into canonical form. A clause whose equations nothing solves makes none.
#![tactic(auto)]

mod build;
mod carrying;
mod found;
mod loading;
mod predicates;
mod program;
mod rows;
mod solving;

pub use loading::load_one;
pub use program::{LoadFault, Loaded, load};
pub use rows::carried_rows;
