ghost use Rattle.std.specs.Prelude.{◌≡◌};
ghost use Rattle.text_fault.specs.Words as spec;

use case_table::{Cases, FaultWord};
use token_model::Kind;

/// A kind of fault as a case of the table of their words. Takes no memory.
pub fn kind_case(kind: Kind) -> FaultWord
    ensures { result ≡ spec.kind_case kind }
{
    match kind {
        Kind::NotUtf8 => FaultWord::NotUtf8,
        Kind::BadToken => FaultWord::BadToken,
        Kind::NumberTooLarge => FaultWord::NumberTooLarge,
        Kind::NameTooLong => FaultWord::NameTooLong,
        Kind::TooDeep => FaultWord::TooDeep,
        Kind::Unsupported => FaultWord::Unsupported,
        Kind::Unexpected => FaultWord::Unexpected,
        Kind::UnexpectedEnd => FaultWord::UnexpectedEnd,
        Kind::NotAnAtom => FaultWord::NotAnAtom,
        Kind::Reserved => FaultWord::Reserved,
        Kind::NotLinear => FaultWord::NotLinear,
        Kind::ZeroDivisor => FaultWord::ZeroDivisor,
        Kind::TooMany => FaultWord::TooMany,
        Kind::NoVersion => FaultWord::NoVersion,
        Kind::Version => FaultWord::Version,
        Kind::BadVariable => FaultWord::BadVariable,
        Kind::BadNumber => FaultWord::BadNumber,
    }
}

/// The words of a kind of fault. Takes no memory.
pub fn kind_word(kind: Kind) -> &'static str
    ensures { result.now ≡ spec.kind_word kind }
{
    kind_case(kind).word_of()
}
