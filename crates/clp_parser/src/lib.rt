//! Parses clauses: exactly the drafts that the grammar gives, or the first fault of a text that has none, and passes
//! over directives. The text is in UTF-8. No call goes deeper than the brackets, of which 256 may be open.
#![tactic(auto)]

mod directives;
mod drafts;
mod expressions;
mod goals;
mod names;
mod operator;
mod reader;

pub use directives::directive;
pub use drafts::{Ending, body, draft};
pub use expressions::expression;
pub use goals::comparison;
pub use reader::{MAX_OPEN, Reader};
