//! Equations that make a textbook's unification slow: their solutions are large, or they meet the same terms again and
//! again. Robinson's algorithm takes time exponential in the length of the chains here.
#![tactic(auto)]

mod equations;
mod families;
mod steps;

pub use equations::Equations;
pub use families::Family;
