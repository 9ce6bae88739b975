//! Scripts as text, both ways: a text is read to exactly the steps of the grammar or its first fault, and steps are
//! printed as exactly their text.
#![tactic(auto)]

mod certificate;
mod field;
mod list;
mod reader;
mod rule;

pub use reader::{read_script, read_step};
pub use script_printer::{print_script, print_step};
