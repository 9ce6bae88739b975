//! Linear forms over exact fractions: they are added, multiplied and divided as the expressions of a clause ask, and
//! become rows. A result is exact or refused. The terms are found by a hash of their variable, so that a sum costs
//! what its right side's terms cost.
#![tactic(auto)]

mod error;
mod form;
mod row;
mod terms;

pub use error::FormError;
pub use form::LinearForm;
pub use form_model::FormFault;
