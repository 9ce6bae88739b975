//! Clauses whose terms lie in a store. Contracts see a clause through `clause_in`, which gives the clause of the
//! definitions with its rows. `canonical` makes exactly the canonical form of a new clause, or tells the first limit
//! that it is past; `variant`, sizes and copies are exact; and every call keeps the terms that the store has.
#![tactic(auto)]

mod clause;
mod cleaning;
mod fault;
mod form;
mod limits;
mod meeting;
mod predicate;
mod printed;
mod renaming;
mod rows;
mod source;
mod table;
mod variants;

pub use clause::{Clause, RawClause, clause_size, copy_clause};
pub use clp_model::{Limit, Pred, Tree};
pub use fault::ClauseFault;
pub use form::canonical;
pub use lin_row::Row;
pub use predicate::pred_is;
pub use printed::name_text;
pub use renaming::{sort_in, sorts_of};
pub use rows::copy_rows;
pub use source::SourceClause;
pub use table::renamed_rows;
pub use variants::variant;
