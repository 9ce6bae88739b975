//! The source clause that a parsed clause stands for: its linear expressions become rows, and its variables get their
//! numbers. The value of an expression, and the row of a relation, are computed by exact fractions.
#![tactic(auto)]

mod atoms;
mod clauses;
mod known;
mod lists;
mod operator;
mod rows;
mod terms;
mod values;

pub use clauses::meaning;
pub use rows::row_of;
pub use values::linear;
