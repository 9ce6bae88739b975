//! What every layer speaks of: names, sorts, trees, predicates and source clauses, and in `specs/`
//! the meaning of clauses: values, valuations, instances, proofs and what is provable; then the
//! canonical form of a clause and its limits. The layers above state their contracts in these words.
#![tactic(auto)]

mod clause;
mod limit;
mod name;
mod predicate;
mod sort;
mod tree;

pub use clause::SourceClause;
pub use limit::Limit;
pub use name::Name;
pub use predicate::Pred;
pub use sort::{Rel, Sort};
pub use tree::{Tree, Variable};
