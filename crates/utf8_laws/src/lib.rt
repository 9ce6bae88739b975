//! Laws of a text in UTF-8 that is read token by token: what remains of it is in UTF-8, and so are the names that its
//! tokens stand for. There is no code here: each law is the contract of an empty function, and the lemmas in `proofs/`
//! are there for the crates above.
#![tactic(auto)]

ghost use Rattle.utf8_laws.specs.Laws.{SkippingKeepsText, TokensKeepText, PassingKeepsText, SpellingIsText, NameIsText, AheadIsAnEnd};

/// What follows white and comments is in UTF-8.
pub fn skipping_keeps_text()
    ensures { SkippingKeepsText }
{}

/// What follows a token is in UTF-8, where the token is not a bad one, also if it is only passed where it is wanted.
pub fn tokens_keep_text()
    ensures taken { TokensKeepText }
    ensures passed { PassingKeepsText }
{}

/// The bytes of a token that is not a bad one are in UTF-8.
pub fn spelling_is_text()
    ensures { SpellingIsText }
{}

/// The name that a token stands for is in UTF-8.
pub fn name_is_text()
    ensures { NameIsText }
{}

/// What follows white and comments is the end of the text, as long as it is.
pub fn ahead_is_an_end()
    ensures { AheadIsAnEnd }
{}
