//! What folding makes of a clause by a definition, as in Tamaki and Sato (1984), with constraints as in Etalle and
//! Gabbrielli (1996): each of its conditions, the rows that are to be shown, and the folded clause. There are
//! definitions in `specs/` alone here.
#![tactic(auto)]
