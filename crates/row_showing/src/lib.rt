//! How a step shows that a row follows from rows, or that rows have no common solution: a certificate that is given is
//! checked by Farkas' lemma, and where there is none the finder makes one. Both answer the certificate with which the step
//! is kept, exactly as the definitions of steps say. Rows that are shown one after another have each its place and its way.
#![tactic(auto)]

mod faults;
mod several;
mod showing;

pub use farkas_check::Cert;
pub use map_model::{Refusal, Shown, Shows};
pub use several::{check_count, show_at, show_rows};
pub use showing::{show_false, show_row};
