//! The printed text of names, terms, rows, clauses and programs. There are definitions in `specs/` alone here; clauses
//! are those of `clp_model`, and the notation is that of Prolog with linear constraints in braces, as in CLP(Q).
#![tactic(auto)]
