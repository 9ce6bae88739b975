//! Laws of printed names, variables and numbers: each is one token, and is taken back from this token. There is no code
//! here: each law is the contract of an empty function, and the lemmas in `proofs/` are there for the crates above.
#![tactic(auto)]

ghost use Rattle.printed_tokens.specs.Laws.{NamesAreTokens, QuotedNamesAreTakenBack, VariablesAreTokens, NumbersAreTokens, NumbersAreTakenBack};

/// A name of at most 255 bytes is printed as one token, plain or quoted, where what follows doesn't go on with it; and a
/// quoted name stands for the name.
pub fn printed_names_are_tokens()
    ensures token { NamesAreTokens }
    ensures name { QuotedNamesAreTakenBack }
{}

/// A variable is printed as one token.
pub fn printed_variables_are_tokens()
    ensures { VariablesAreTokens }
{}

/// A number that is not too large is printed as one token, of this value.
pub fn printed_numbers_are_tokens()
    ensures token { NumbersAreTokens }
    ensures value { NumbersAreTakenBack }
{}
