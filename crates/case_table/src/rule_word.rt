ghost use Rattle.case_table.specs.Rules.{rule_word, rule_words_differ};

use crate::cases::{Cases, case_by_table, word_by_table};

/// A word of a step of a script.
#[derive(Clone, Copy, Debug, PartialEq, Eq)]
pub enum RuleWord {
    Define,
    Unfold,
    At,
    Fold,
    By,
    With,
    Keep,
    Show,
    Delete,
    False,
    Useless,
    Merge,
    Add,
    Row,
    Drop,
    Project,
    Var,
    Equate,
    To,
    Find,
}

/// The table, handed on to the macro that makes a body of it.
macro_rules! rule_words {
    ($body:ident, $from:expr) => {
        $body!($from;
            RuleWord::Define => "define",
            RuleWord::Unfold => "unfold",
            RuleWord::At => "at",
            RuleWord::Fold => "fold",
            RuleWord::By => "by",
            RuleWord::With => "with",
            RuleWord::Keep => "keep",
            RuleWord::Show => "show",
            RuleWord::Delete => "delete",
            RuleWord::False => "false",
            RuleWord::Useless => "useless",
            RuleWord::Merge => "merge",
            RuleWord::Add => "add",
            RuleWord::Row => "row",
            RuleWord::Drop => "drop",
            RuleWord::Project => "project",
            RuleWord::Var => "var",
            RuleWord::Equate => "equate",
            RuleWord::To => "to",
            RuleWord::Find => "find",
        )
    };
}

impl Cases for RuleWord {
    ghost spelling = { rule_word };

    fn case_of(word: &str) -> Option<RuleWord> {
        rule_words!(case_by_table, word)
    }

    fn word_of(self) -> &'static str {
        rule_words!(word_by_table, self)
    }

    ghost distinct = { rule_words_differ };
}
