//! Exact arithmetic on fractions whose numerator and denominator have 63 bits: each result is in lowest terms, or
//! is refused where it leaves that range. What is computed in between has at most 127 bits, so nothing wraps.
#![tactic(auto)]

mod frac;
mod wide;

pub use frac::Frac;
pub use frac_model::FracFault;
