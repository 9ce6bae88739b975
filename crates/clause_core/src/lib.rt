//! Clauses: the types and calls of `clause_store`, under the name by which the layers above know them.
#![tactic(auto)]

pub use clause_store::{
    Clause, ClauseFault, Limit, Pred, RawClause, Row, SourceClause, Tree, canonical, clause_size,
    copy_clause, name_text, pred_is, variant,
};
