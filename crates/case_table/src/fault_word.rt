ghost use Rattle.case_table.specs.Faults.{fault_word, fault_words_differ};

use crate::cases::{Cases, case_by_table, word_by_table};

/// What is wrong with a text, or with a certificate.
#[derive(Clone, Copy, Debug, PartialEq, Eq)]
pub enum FaultWord {
    NotUtf8,
    BadToken,
    NumberTooLarge,
    NameTooLong,
    TooDeep,
    Unsupported,
    Unexpected,
    UnexpectedEnd,
    NotAnAtom,
    Reserved,
    NotLinear,
    ZeroDivisor,
    TooMany,
    NoVersion,
    Version,
    BadVariable,
    BadNumber,
    Form,
    Count,
    Negative,
    NotConstant,
    WrongSign,
}

/// The table, handed on to the macro that makes a body of it.
macro_rules! fault_words {
    ($body:ident, $from:expr) => {
        $body!($from;
            FaultWord::NotUtf8 => "not utf-8",
            FaultWord::BadToken => "bad token",
            FaultWord::NumberTooLarge => "number too large",
            FaultWord::NameTooLong => "name too long",
            FaultWord::TooDeep => "too deep",
            FaultWord::Unsupported => "unsupported",
            FaultWord::Unexpected => "unexpected",
            FaultWord::UnexpectedEnd => "unexpected end",
            FaultWord::NotAnAtom => "not an atom",
            FaultWord::Reserved => "reserved",
            FaultWord::NotLinear => "not linear",
            FaultWord::ZeroDivisor => "zero divisor",
            FaultWord::TooMany => "too many",
            FaultWord::NoVersion => "no version",
            FaultWord::Version => "version",
            FaultWord::BadVariable => "bad variable",
            FaultWord::BadNumber => "bad number",
            FaultWord::Form => "form",
            FaultWord::Count => "count",
            FaultWord::Negative => "negative",
            FaultWord::NotConstant => "not constant",
            FaultWord::WrongSign => "wrong sign",
        )
    };
}

impl Cases for FaultWord {
    ghost spelling = { fault_word };

    fn case_of(word: &str) -> Option<FaultWord> {
        fault_words!(case_by_table, word)
    }

    fn word_of(self) -> &'static str {
        fault_words!(word_by_table, self)
    }

    ghost distinct = { fault_words_differ };
}
