//! The rule `fold`, by which atoms of a clause that are an instance of a definition's give way to an atom of its
//! predicate. It follows its definition `fold_after` exactly. That it keeps what is provable is a law of its own, in
//! another crate.
#![tactic(auto)]

mod conditions;
mod folding;
mod images;
mod showing;

pub use folding::fold;
pub use map_model::Shows;
pub use map_state::{Refusal, State, Step};
