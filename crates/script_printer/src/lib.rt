//! Prints steps and scripts: exactly the text of the definitions.
#![tactic(auto)]

mod certificate;
mod list;
mod source;
mod step;
mod tree;

pub use step::{print_script, print_step};
