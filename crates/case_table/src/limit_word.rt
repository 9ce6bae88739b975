ghost use Rattle.case_table.specs.Limits.{limit_word, limit_words_differ};

use crate::cases::{Cases, case_by_table, word_by_table};

/// What is counted and may be past its limit.
#[derive(Clone, Copy, Debug, PartialEq, Eq)]
pub enum LimitWord {
    Shape,
    Atoms,
    Variables,
    Rows,
    Clauses,
    Nodes,
    Steps,
    Chain,
}

/// The table, handed on to the macro that makes a body of it.
macro_rules! limit_words {
    ($body:ident, $from:expr) => {
        $body!($from;
            LimitWord::Shape => "shape",
            LimitWord::Atoms => "atoms",
            LimitWord::Variables => "variables",
            LimitWord::Rows => "rows",
            LimitWord::Clauses => "clauses",
            LimitWord::Nodes => "nodes",
            LimitWord::Steps => "steps",
            LimitWord::Chain => "chain",
        )
    };
}

impl Cases for LimitWord {
    ghost spelling = { limit_word };

    fn case_of(word: &str) -> Option<LimitWord> {
        limit_words!(case_by_table, word)
    }

    fn word_of(self) -> &'static str {
        limit_words!(word_by_table, self)
    }

    ghost distinct = { limit_words_differ };
}
