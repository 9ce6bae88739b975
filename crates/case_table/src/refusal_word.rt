ghost use Rattle.case_table.specs.Refusals.{refusal_word, refusal_words_differ};

use crate::cases::{Cases, case_by_table, word_by_table};

/// Why a step is refused, without the fields.
#[derive(Clone, Copy, Debug, PartialEq, Eq)]
pub enum RefusalWord {
    NoClause,
    NoAtom,
    NoRow,
    RepeatedPosition,
    NotFresh,
    HeadNotVariables,
    EmptyDefinition,
    RecursiveDefinition,
    UnknownPredicate,
    LooseVariable,
    Unmarked,
    NoDefinition,
    NoMatch,
    BadWith,
    LostVariable,
    Unentailed,
    BadMultipliers,
    Satisfiable,
    NotUseless,
    StillUsed,
    NotEqualAtoms,
    NotNumber,
    Overflow,
    TooLarge,
    NoMemory,
}

/// The table, handed on to the macro that makes a body of it.
macro_rules! refusal_words {
    ($body:ident, $from:expr) => {
        $body!($from;
            RefusalWord::NoClause => "no clause",
            RefusalWord::NoAtom => "no atom",
            RefusalWord::NoRow => "no row",
            RefusalWord::RepeatedPosition => "repeated position",
            RefusalWord::NotFresh => "not fresh",
            RefusalWord::HeadNotVariables => "head not variables",
            RefusalWord::EmptyDefinition => "empty definition",
            RefusalWord::RecursiveDefinition => "recursive definition",
            RefusalWord::UnknownPredicate => "unknown predicate",
            RefusalWord::LooseVariable => "loose variable",
            RefusalWord::Unmarked => "unmarked",
            RefusalWord::NoDefinition => "no definition",
            RefusalWord::NoMatch => "no match",
            RefusalWord::BadWith => "bad with",
            RefusalWord::LostVariable => "lost variable",
            RefusalWord::Unentailed => "unentailed",
            RefusalWord::BadMultipliers => "bad multipliers",
            RefusalWord::Satisfiable => "satisfiable",
            RefusalWord::NotUseless => "not useless",
            RefusalWord::StillUsed => "still used",
            RefusalWord::NotEqualAtoms => "not equal atoms",
            RefusalWord::NotNumber => "not number",
            RefusalWord::Overflow => "overflow",
            RefusalWord::TooLarge => "too large",
            RefusalWord::NoMemory => "no memory",
        )
    };
}

impl Cases for RefusalWord {
    ghost spelling = { refusal_word };

    fn case_of(word: &str) -> Option<RefusalWord> {
        refusal_words!(case_by_table, word)
    }

    fn word_of(self) -> &'static str {
        refusal_words!(word_by_table, self)
    }

    ghost distinct = { refusal_words_differ };
}
