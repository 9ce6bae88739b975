//! Exact elimination of a variable from linear rows over the rationals: by an equation that has the variable
//! (Gauss), or else by its lower and upper bounds in pairs (Fourier and Motzkin). The new rows hold under a
//! valuation of the other variables exactly where some rational for the eliminated one makes the old rows hold.
#![tactic(auto)]

mod bounds;
mod cancelling;
mod elimination;
mod equation;
mod kept;

pub use cancelling::factors;
pub use elimination::{ElimFault, eliminate};
