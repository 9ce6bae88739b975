//! Folding of stored clauses: what is asked of a definition, and the folded clause by its parts: positions of atoms and
//! rows, the images of the definition's variables, which of its internal variables is lost, what its rows become, and
//! the clause in which its head stands in the place of the atoms. Positions count from 1.
#![tactic(auto)]

mod carrying;
mod definitions;
mod folded;
mod internal;
mod marks;
mod matching;
mod naming;
mod parts;
mod positions;
mod rows;

pub use definitions::{loose_variable, wrong_argument};
pub use folded::folded_clause;
pub use internal::lost_variable;
pub use matching::{images, matched};
pub use naming::bad_with;
pub use parts::{at_positions, chosen_rows, other_rows, others, replaced};
pub use positions::{first_outside, first_repeated, in_range, is_in};
pub use rows::{image_numbers, image_row};
