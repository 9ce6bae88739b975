//! Scripts applied to programs. `apply` is the definition `after` of one step, or leaves the state as it was; `replay`
//! is what the definition `replayed` makes of the bytes of a program and a script, and what is printed of it keeps
//! every ground atom's provability.
#![tactic(auto)]

mod output;
mod replaying;
mod run;

pub use map_base::refusal_text;
pub use map_model::{Refusal, Step};
pub use map_state::{Change, Entry, Made, Ready, State};
pub use output::print_program;
pub use replay_model::ReplayFault;
pub use replaying::{open_program, replay, run_script, start};
pub use run::apply;
