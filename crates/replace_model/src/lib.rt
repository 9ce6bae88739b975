//! What the rules on constraints make of a clause: a row added, a row dropped, a variable eliminated from the rows, a
//! variable put in the place of another. There are definitions in `specs/` alone here.
#![tactic(auto)]
