//! Replaying a script on a program, from the bytes of the two to the bytes of the program that is written, and the
//! headline: what this program proves. There are definitions in `specs/` and the fault of a replay alone here.
#![tactic(auto)]

mod replay_fault;

pub use replay_fault::ReplayFault;
