//! The grammar of scripts, read from the left with one token ahead, and the printed text of steps and scripts. There are
//! definitions in `specs/` alone here.
#![tactic(auto)]
