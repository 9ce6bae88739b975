ghost use Rattle.case_table.specs.Relations.{relation_word, relation_words_differ};

use crate::cases::{Cases, case_by_table, word_by_table};

/// A relation between two numbers or terms, by its mark.
#[derive(Clone, Copy, Debug, PartialEq, Eq)]
pub enum RelationWord {
    /// The same term.
    Equal,
    /// Equal numbers.
    NumberEqual,
    AtMost,
    Less,
    AtLeast,
    Greater,
}

/// The table, handed on to the macro that makes a body of it.
macro_rules! relation_words {
    ($body:ident, $from:expr) => {
        $body!($from;
            RelationWord::Equal => "=",
            RelationWord::NumberEqual => "=:=",
            RelationWord::AtMost => "=<",
            RelationWord::Less => "<",
            RelationWord::AtLeast => ">=",
            RelationWord::Greater => ">",
        )
    };
}

impl Cases for RelationWord {
    ghost spelling = { relation_word };

    fn case_of(word: &str) -> Option<RelationWord> {
        relation_words!(case_by_table, word)
    }

    fn word_of(self) -> &'static str {
        relation_words!(word_by_table, self)
    }

    ghost distinct = { relation_words_differ };
}
