//! The resolvent of two clauses, as unfolding makes it. There are definitions in `specs/` alone here.
#![tactic(auto)]
