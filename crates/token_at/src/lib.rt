//! The tokens of a text one by one, for a caller who keeps the places: the first token from a place on, and the name
//! that a token stands for.
#![tactic(auto)]

mod before;
mod name;
mod place;
mod token;

pub use name::name_of;
pub use place::next_token;
pub use token::{Token, TokenKind};
