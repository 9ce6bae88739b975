//! The lines that say why there is no program to write: which step is refused and why, where a text is wrong and how,
//! which clause isn't loaded and why, or that a text is too long.
#![tactic(auto)]

mod line;

pub use line::{fault_line, long_program_line, long_script_line};
