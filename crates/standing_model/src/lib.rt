//! What printed terms, rows and clauses are parsed as: their expressions, comparisons, goals and drafts, with the place of
//! each. There are definitions in `specs/` alone here. The places count from the end of the text, so each of them is told
//! by how many bytes follow what is printed.
#![tactic(auto)]
