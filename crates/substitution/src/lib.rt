//! Substitutions whose images are terms of a store: those of a most general unifier, which are kept in triangular form and
//! carried out one after another, and those of one-sided matching, which are put in at once. Both are as in Baader and
//! Snyder, "Unification theory", in the Handbook of Automated Reasoning, 2001. A substitution knows the size and the depth
//! of each image before it makes one, so that no image is made that is too large.
#![tactic(auto)]

mod bindings;
mod building;
mod images;
mod patterns;
mod subst;
mod weighing;

pub use bindings::{Bindings, Bound};
pub use building::apply;
pub use patterns::matching;
pub use subst::Subst;
