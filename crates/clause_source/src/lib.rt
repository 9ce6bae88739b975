//! The source of a clause: the clause as it is written, with its variables numbered as they are first met in its
//! printed text. Loading it again gives the clause.
#![tactic(auto)]

mod meeting;
mod source;
mod trees;

pub use source::source_of;
