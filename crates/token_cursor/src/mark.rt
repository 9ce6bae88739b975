//! Marks, the end of a clause, and the tokens that are left out.

ghost use Rattle.std.specs.Prelude.{◌≡◌, ◌≤◌, ◌+◌, ◌∷◌, [], length, if◌then◌else◌};
ghost use Rattle.token_model.specs.Marks as spec;
ghost use Rattle.token_cursor.specs.Singles.{single_by};

use crate::white::is_white;
use token_model::{Lexeme, Token};

fn token(lexeme: Lexeme, len: usize) -> Token
    ensures { result ≡ record { lexeme = lexeme; len = len } }
{
    Token { lexeme, len }
}

/// What a `.` is before this text.
#[tactic(auto, unfolding(token_model::specs::Marks::dot))]
pub fn dot(after_number: bool, text: &[u8]) -> Token
    ensures { result ≡ spec.dot after_number text.now }
{
    match text.first() {
        None => token(Lexeme::End, 1),
        Some(b) if is_white(*b) || *b == b'%' => token(Lexeme::End, 1),
        Some(b) if after_number && b.is_ascii_digit() => token(Lexeme::Unsupported, 1),
        Some(_) => token(Lexeme::Bad, 1),
    }
}

/// Whether a text begins with this byte.
fn begins(text: &[u8], b: u8) -> bool
    ensures { result ≡ spec.begins_with (b ∷ []) text.now }
{
    match text.first() {
        Some(first) => *first == b,
        None => false,
    }
}

/// `=:=`, `=\=`, `=<`, `==` or `=`.
#[tactic(auto, unfolding(token_model::specs::Marks::mark))]
fn equal(rest: &[u8]) -> Token
    ensures value { result ≡ spec.mark (61 ∷ rest.now) }
    ensures within { result.len ≤ 1 + length rest.now }
{
    match rest.split_first() {
        Some((b':', more)) if begins(more, b'=') => token(Lexeme::NumberEqual, 3),
        Some((b'\\', more)) if begins(more, b'=') => token(Lexeme::Unsupported, 3),
        Some((b'<', _)) => token(Lexeme::AtMost, 2),
        Some((b'=', _)) => token(Lexeme::Unsupported, 2),
        _ => token(Lexeme::Equal, 1),
    }
}

/// `\==`, `\=`, `\+`, or a backslash that begins no token.
#[tactic(auto, unfolding(token_model::specs::Marks::mark))]
fn backslash(rest: &[u8]) -> Token
    ensures value { result ≡ spec.mark (92 ∷ rest.now) }
    ensures within { result.len ≤ 1 + length rest.now }
{
    match rest.split_first() {
        Some((b'=', more)) if begins(more, b'=') => token(Lexeme::Unsupported, 3),
        Some((b'=' | b'+', _)) => token(Lexeme::Unsupported, 2),
        _ => token(Lexeme::Bad, 1),
    }
}

/// `-->`, `->` or `-`.
#[tactic(auto, unfolding(token_model::specs::Marks::mark))]
fn minus(rest: &[u8]) -> Token
    ensures value { result ≡ spec.mark (45 ∷ rest.now) }
    ensures within { result.len ≤ 1 + length rest.now }
{
    match rest.split_first() {
        Some((b'-', more)) if begins(more, b'>') => token(Lexeme::Unsupported, 3),
        Some((b'>', _)) => token(Lexeme::Unsupported, 2),
        _ => token(Lexeme::Minus, 1),
    }
}

/// The longer one of two marks, if this byte follows the first, or else the shorter one.
fn longer(rest: &[u8], b: u8, long: Lexeme, short: Lexeme) -> Token
    ensures value { result ≡ (if spec.begins_with (b ∷ []) rest.now then record { lexeme = long; len = 2 } else record { lexeme = short; len = 1 }) }
    ensures within { result.len ≤ 1 + length rest.now }
{
    if begins(rest, b) {
        token(long, 2)
    } else {
        token(short, 1)
    }
}

/// A mark of one byte that no longer mark begins with, or a byte that begins no token.
fn single(first: u8) -> Lexeme
    ensures { result ≡ single_by first }
{
    match first {
        b'(' => Lexeme::OpenRound,
        b')' => Lexeme::CloseRound,
        b'[' => Lexeme::OpenSquare,
        b']' => Lexeme::CloseSquare,
        b'{' => Lexeme::OpenCurly,
        b'}' => Lexeme::CloseCurly,
        b',' => Lexeme::Comma,
        b'|' => Lexeme::Bar,
        b'<' => Lexeme::Less,
        b'+' => Lexeme::Plus,
        b'*' => Lexeme::Times,
        b'!' | b';' | b'^' | b'"' => Lexeme::Unsupported,
        _ => Lexeme::Bad,
    }
}

/// The mark at the front of a text, the longest that stands there, by its first byte and what follows that.
#[tactic(auto, using(crate::proofs::Singles::single_mark), unfolding(token_model::specs::Marks::mark))]
pub fn mark(first: u8, rest: &[u8]) -> Token
    ensures value { result ≡ spec.mark (first ∷ rest.now) }
    ensures within { result.len ≤ 1 + length rest.now }
{
    match first {
        b'=' => equal(rest),
        b'\\' => backslash(rest),
        b'-' => minus(rest),
        b':' => longer(rest, b'-', Lexeme::If, Lexeme::Bad),
        b'>' => longer(rest, b'=', Lexeme::AtLeast, Lexeme::Greater),
        b'?' => longer(rest, b'-', Lexeme::Unsupported, Lexeme::Bad),
        b'/' => longer(rest, b'*', Lexeme::Bad, Lexeme::Over),
        _ => token(single(first), 1),
    }
}
