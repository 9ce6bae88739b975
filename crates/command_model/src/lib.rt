//! What a call of the program asks for and writes: the commands that words mean, the plan of each command, and what each
//! status says of the files. There are definitions in `specs/` and the status alone here.
#![tactic(auto)]

pub mod status;

pub use status::Status;
