//! The tokens of programs and scripts. A `Cursor` is seen as the text that is left and whether a number was just
//! passed: what it peeks at and takes is exactly the next token of the definition, and `expect` passes a token of the
//! wanted kind, or else nothing and tells the fault. Every text is read in one pass from the left, and only a name
//! takes memory.
#![tactic(auto)]

mod cursor;
mod mark;
mod name;
mod number;
mod quoted;
mod token;
mod utf8;
mod white;
mod word;

pub use cursor::Cursor;
pub use name::name_of;
pub use number::{MAX_NUMBER, number_value};
pub use token::first_token;
pub use utf8::not_utf8;
pub use white::skip;
