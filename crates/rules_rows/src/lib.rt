//! The rules on the rows of a clause: `add_row` puts a row last that the rows entail, `drop_row` removes one that the
//! others entail, `project` eliminates a variable that is in rows alone (Gauss, and Fourier and Motzkin), and `equate` puts
//! a variable in the place of one that the rows make equal to it. Each follows its definition exactly: `add_after`,
//! `drop_after`, `project_after`, `equate_after`. That these steps keep what is provable is a law of its own, in another
//! crate.
#![tactic(auto)]

mod adding;
mod dropping;
mod equating;
mod equation;
mod projecting;
mod rebuilding;
mod replacing;
mod uses;
mod variables;

pub use adding::add_row;
pub use dropping::drop_row;
pub use equating::equate;
pub use map_state::{Refusal, Shown, State, Step};
pub use projecting::project;
