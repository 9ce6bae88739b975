//! Checks of certificates by Farkas' lemma: that a row follows from rows, or that rows have no common solution, by
//! multipliers that are given. The sums have 128 bits, so that nothing wraps, and a check takes no memory.
#![tactic(auto)]

mod answers;
mod cert;
mod check;
mod fault;
mod part;
mod sum;
mod walk;

pub use answers::{shown, shown_false};
pub use cert::Cert;
pub use fault::CheckFault;
pub use part::Part;
