//! The text of programs and goals: reading (`clp_reader`), loading and the source of a clause (`clause_loader`, `clause_source`) and
//! printing (`clause_printer`), under one name.
#![tactic(auto)]

pub use clause_loader::{LoadFault, Loaded, load, load_one};
pub use clause_printer::{print_clause, print_row};
pub use clause_source::source_of;
pub use clp_reader::{clause_at, read_clauses, read_goal, read_program};
pub use row_reader::row_at;
pub use text_fault::{TextError, TextFault};
