//! What a table of words offers, and the bodies that are made of one.

ghost use Rattle.std.specs.Prelude.{◌≡◌, List, ℕ, Some};
ghost use Rattle.case_table.specs.Tables.{IsCaseOf};

/// A type whose cases each have a word of their own: the two calls are inverse.
pub trait Cases: Copy {
    /// The word of a case.
    ghost spelling: { Self → List ℕ };

    /// The case that has this word, and None where no case has it. Takes no memory.
    fn case_of(word: &str) -> Option<Self>
        ensures { IsCaseOf Self.spelling word.now result };

    /// The word of this case. Takes no memory.
    fn word_of(self) -> &'static str
        ensures { result.now ≡ Self.spelling self };

    /// Different cases have different words.
    ghost distinct: { (a b : Self) → Self.spelling a ≡ Self.spelling b → a ≡ b };
}

/// No two cases of a table have one word.
pub fn different_cases_have_different_words<C: Cases>()
    ensures { (a b : C) → C.spelling a ≡ C.spelling b → a ≡ b }
{}

/// The case of a case's word: the case itself.
pub fn case_of_its_word<C: Cases>(case: C) -> Option<C>
    ensures { result ≡ Some case }
{
    C::case_of(case.word_of())
}

/// The word of a case: an arm for each entry of a table.
macro_rules! word_by_table {
    ($case:expr; $($variant:path => $word:literal,)*) => {
        match $case {
            $($variant => $word,)*
        }
    };
}

/// The case of a word, or None: an arm for each entry of a table.
macro_rules! case_by_table {
    ($text:expr; $($variant:path => $word:literal,)*) => {
        match $text {
            $($word => Some($variant),)*
            _ => None,
        }
    };
}

pub(crate) use case_by_table;
pub(crate) use word_by_table;
