//! The limits that hold of every state that a run reaches. There is no code here: each law is the contract of an empty
//! function.
#![tactic(auto)]

mod laws;

pub use laws::{accepted_runs_keep_limits, accepted_steps_keep_limits, start_is_within_limits};
