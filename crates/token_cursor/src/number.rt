//! Numbers, and the value of their digits.

ghost use Rattle.std.specs.Prelude.{◌≡◌, ◌≤◌, ◌+◌, ◌-◌, ◌*◌, length, min};
ghost use Rattle.std.specs.Str.Parse.{AllDigits};
ghost use Rattle.token_model.specs.Numbers as spec;

use token_model::{Lexeme, Token};

/// The greatest value of a number token.
pub const MAX_NUMBER: u64 = 9_223_372_036_854_775_807;

const ABOVE: u64 = MAX_NUMBER + 1;

/// How many digits stand at the front of a text.
pub fn digits_len(text: &[u8]) -> usize
    ensures value { result ≡ spec.digits_len text.now }
    ensures within { result ≤ length text.now }
{
    for (at, b) in text.iter().enumerate() {
        if !b.is_ascii_digit() {
            return at;
        }
    }
    text.len()
}

/// The value of digits, and one above `MAX_NUMBER` where it is larger than that.
///
/// Leading zeros are allowed, as many as there are.
pub fn number_value(digits: &[u8]) -> u64
    requires { AllDigits 10 digits.now }
    ensures { result ≡ min (spec.number_value digits.now) (spec.max_number + 1) }
{
    let mut value: u64 = 0;
    for b in digits {
        value = with_digit(value, *b);
    }
    value
}

/// The number so far, up to one above `MAX_NUMBER`, with one more digit.
fn with_digit(value: u64, digit: u8) -> u64
    requires low { 48 ≤ digit }
    requires high { digit ≤ 57 }
    ensures { result ≡ min (value * 10 + (digit - 48)) (spec.max_number + 1) }
{
    value
        .saturating_mul(10)
        .saturating_add(u64::from(digit - b'0'))
        .min(ABOVE)
}

/// Whether a text goes on with a letter, `_` or a single quote, which no number stands directly before.
#[tactic(auto, unfolding(token_model::specs::Numbers::joins_number))]
pub fn joins_number(text: &[u8]) -> bool
    ensures { result ≡ spec.joins_number text.now }
{
    match text.first() {
        Some(b) => b.is_ascii_alphabetic() || *b == b'_' || *b == b'\'',
        None => false,
    }
}

/// The number at the front of a text.
#[tactic(auto, using(crate::proofs::Digits::digits_are_digits), unfolding(token_model::specs::Numbers::number))]
pub fn number(text: &[u8]) -> Token
    ensures value { result ≡ spec.number text.now }
    ensures within { result.len ≤ length text.now }
{
    let len = digits_len(text);
    let (digits, rest) = text.split_at(len);
    let lexeme = if joins_number(rest) {
        Lexeme::Bad
    } else {
        lexeme_of_digits(digits)
    };
    Token { lexeme, len }
}

#[tactic(auto, unfolding(token_model::specs::Numbers::lexeme_of_digits))]
fn lexeme_of_digits(digits: &[u8]) -> Lexeme
    requires { AllDigits 10 digits.now }
    ensures { result ≡ spec.lexeme_of_digits digits.now }
{
    if number_value(digits) > MAX_NUMBER {
        Lexeme::NumberTooLarge
    } else {
        Lexeme::Number
    }
}
