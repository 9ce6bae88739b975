//! Runs of rewriting steps over programs of clauses: states, steps, what a step makes of a state or why it is refused,
//! and what a script of steps makes. Definitions (in `specs/`) and the types that they speak of; no rule is carried
//! out here. The rules are those of Tamaki and Sato (1984) for logic programs, with constraints as in Etalle and
//! Gabbrielli (1996).
#![tactic(auto)]

mod refusal;
mod shown;
mod step;

pub use refusal::Refusal;
pub use shown::{Shown, Shows};
pub use step::Step;
