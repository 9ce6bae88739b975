//! The token at the front of a text.

ghost use Rattle.std.specs.Prelude.{◌≡◌, ◌≤◌, length};
ghost use Rattle.token_model.specs.Tokens as spec;

use crate::mark::{dot, mark};
use crate::number::number;
use crate::quoted::quoted;
use crate::word::word;
use token_model::{Lexeme, Token};

/// The token at the front of a text that begins with no white and no comment, and whether it stands directly after a
/// number, where a `.` before a digit is none of MAP's.
#[tactic(auto, unfolding(token_model::specs::Tokens::token, token_model::specs::Marks::dot))]
pub fn first_token(after_number: bool, text: &[u8]) -> Token
    ensures value { result ≡ spec.token after_number text.now }
    ensures within { result.len ≤ length text.now }
{
    match text.split_first() {
        None => Token {
            lexeme: Lexeme::Finish,
            len: 0,
        },
        Some((first, rest)) => {
            if first.is_ascii_lowercase() {
                word(Lexeme::Name, text)
            } else if first.is_ascii_uppercase() || *first == b'_' {
                word(Lexeme::Variable, text)
            } else if first.is_ascii_digit() {
                number(text)
            } else if *first == b'\'' {
                quoted(text)
            } else if *first == b'.' {
                dot(after_number, rest)
            } else {
                mark(*first, rest)
            }
        }
    }
}
