//! What the crates on fractions speak of: the fraction in lowest terms of a numerator over a denominator, the
//! sums, differences, products and quotients of fractions, and which of them lie within the limit.
#![tactic(auto)]

mod fault;

pub use fault::FracFault;
