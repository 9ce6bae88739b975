//! The tokens of programs and scripts, by their definitions in `specs/`, and the types that these speak of: white and
//! comments, names plain and quoted, variables, numbers, marks, the end of a clause, and what is wrong with a text. The
//! language of tokens is that of Prolog (Deransart, Ed-Dbali and Cervoni 1996), cut down to what MAP reads.
#![tactic(auto)]

mod fault;
mod token;

pub use fault::{Fault, Kind, ReadError};
pub use token::{Lexeme, Token};
