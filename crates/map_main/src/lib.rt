//! The top call: `map_run` answers the words of a command over a shelf of files, an input and an output.
//! What it writes is exactly the text to which the plan of the command leads, each status has its cause, the program
//! that `replay` writes keeps every ground atom's provability, and the script that `fill` writes ends in the same state.
//!
//! The outside is `map_base`'s shelf, source and sink; here are the adapters over real files, standard input and
//! standard output.
#![tactic(auto)]

pub mod adapters;
mod command;
mod replaying;
mod run;
pub mod words;
pub mod writing;

pub use adapters::{FileShelf, InputSource, OutputSink};
pub use command_model::Status;
pub use map_base::{
    Loading, MemShelf, MemSink, MemSource, Shelf, ShelfFault, Sink, SinkFault, Source, SourceFault,
};
pub use run::map_run;
pub use term_store::NoMemory;
pub use words::Words;
pub use writing::put;
