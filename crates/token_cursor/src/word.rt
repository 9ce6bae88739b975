//! Plain names and variables.

ghost use Rattle.std.specs.Prelude.{◌≡◌, ◌≤◌, length};
ghost use Rattle.token_model.specs.Names as spec;

use token_model::{Lexeme, Token};

/// How many bytes a name or a variable has at most.
pub const MAX_NAME: usize = 255;

fn is_word(b: u8) -> bool
    ensures { result ≡ spec.is_word b }
{
    b.is_ascii_alphanumeric() || b == b'_'
}

fn word_len(text: &[u8]) -> usize
    ensures value { result ≡ spec.word_len text.now }
    ensures within { result ≤ length text.now }
{
    for (at, b) in text.iter().enumerate() {
        if !is_word(*b) {
            return at;
        }
    }
    text.len()
}

/// Such a token, unless a name of this length is too long.
pub fn unless_long(lexeme: Lexeme, len: usize) -> Lexeme
    ensures { result ≡ spec.unless_long lexeme len }
{
    if len > MAX_NAME {
        Lexeme::NameTooLong
    } else {
        lexeme
    }
}

/// The name or the variable at the front of a text.
#[tactic(auto, unfolding(token_model::specs::Names::word))]
pub fn word(lexeme: Lexeme, text: &[u8]) -> Token
    ensures value { result ≡ spec.word lexeme text.now }
    ensures within { result.len ≤ length text.now }
{
    let len = word_len(text);
    Token {
        lexeme: unless_long(lexeme, len),
        len,
    }
}
