//! What every command stands on: the outside and the lines of refusals.
//!
//! A shelf, a source and a sink each say in their contracts what they hold, have left or have taken, and count their
//! faults, so that an answer can be blamed on the outside only where it failed. Beside the traits stand their forms in
//! memory, which fail at chosen calls.
#![tactic(auto)]

pub mod memory;
pub mod outside;
mod refusal_line;

pub use memory::{MemShelf, MemSink, MemSource};
pub use outside::{Loading, Shelf, ShelfFault, Sink, SinkFault, Source, SourceFault};
pub use refusal_line::{limit_text, refusal_number, refusal_text};
