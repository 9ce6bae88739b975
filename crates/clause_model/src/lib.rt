//! Clauses with rows and equations: their canonical form, what their equations solve to, loading, and the source
//! of a clause as it is printed. There are definitions in `specs/` alone here; clauses and their instances are
//! those of `clp_model`.
#![tactic(auto)]
