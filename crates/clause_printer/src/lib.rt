//! Prints names, variables, rows, constraints and clauses as Prolog with linear constraints in braces writes them: exactly the text of the
//! definitions.
#![tactic(auto)]

mod clause;
mod constraints;
mod name;
mod row;
mod term;

pub use clause::print_clause;
pub use constraints::{loose_nums, print_braces};
pub use name::name_text;
pub use row::{print_row, print_variable};
