//! Tables of words: enums whose cases each have one word of a text form, and the two ways between a case and its
//! word, which are inverse. A further word is a further case and one line of its table.
#![tactic(auto)]

mod cases;
mod fault_word;
mod limit_word;
mod refusal_word;
mod relation_word;
mod rule_word;

pub use cases::{Cases, case_of_its_word, different_cases_have_different_words};
pub use fault_word::FaultWord;
pub use limit_word::LimitWord;
pub use refusal_word::RefusalWord;
pub use relation_word::RelationWord;
pub use rule_word::RuleWord;
