//! What every crate on linear rows speaks of: linear forms, the normal form of a row, the elimination of a
//! variable (Gauss and Fourier-Motzkin), certificates by Farkas multipliers, and the chain of eliminations that
//! finds one. There are definitions in `specs/` alone here; the rows are those of `clp_model`.
#![tactic(auto)]
