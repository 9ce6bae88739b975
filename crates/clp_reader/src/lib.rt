//! Reads the texts of programs and goals, and clauses within texts: exactly the source clauses that the grammar gives,
//! or the first fault of a text that has none, with its place. What is read may be loaded.
#![tactic(auto)]

mod clauses;
mod places;
mod texts;

pub use clauses::clause;
pub use places::clause_at;
pub use texts::{read_clauses, read_goal, read_program};
