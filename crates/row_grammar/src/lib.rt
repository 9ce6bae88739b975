//! The grammar of the row that a step adds: a linear relation over the variables `V1`, `V2` and so on of a clause. There
//! are definitions in `specs/` alone here.
#![tactic(auto)]
