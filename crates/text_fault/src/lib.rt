//! The faults of texts as a caller is told them: by the place of a byte from the front, and in words. A parser knows
//! how many bytes are left and no more; the length of the whole text makes a place of it.
#![tactic(auto)]

mod fault;
mod places;
mod words;

pub use fault::{TextError, TextFault};
pub use places::{placed, told};
pub use words::{kind_case, kind_word};
