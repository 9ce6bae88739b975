//! Reads the row of a step that adds one: a linear relation over the variables `V1`, `V2` and so on of a clause, and the
//! word `show` after it.
#![tactic(auto)]

mod place;
mod row;
mod variable;

pub use place::row_at;
pub use row::row_to_show;
