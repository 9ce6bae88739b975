//! Linear rows `L = 0`, `L =< 0` and `L < 0` with whole coefficients below 2^63, kept in normal form: coefficients
//! and constant have no common divisor, and the first coefficient of an equation is positive. All steps between
//! are computed in 128 bits, so that a result is exact or refused by `Overflow`.
#![tactic(auto)]

mod change;
mod combine;
mod euclid;
mod order;
mod reduce;
mod rename;
mod row;
mod source;
mod truth;

pub use clp_model::Rel;
pub use euclid::gcd;
pub use row::{Row, RowFault};
pub use truth::Truth;
