//! Linear forms over exact fractions: sums, differences, products and quotients of forms, and the row that compares
//! a form with 0.
#![tactic(auto)]

mod fault;

pub use fault::FormFault;
