//! The first token from a place on.

ghost use Rattle.std.specs.Prelude.{◌≡◌, ◌≤◌, ◌<◌, ◌^◌, ◌&&◌, nat_eq, IfOk, IsCharBoundary, length};
ghost use Rattle.token_at.specs.Before as before_place;
ghost use Rattle.token_at.specs.Places as spec;

use crate::before::ends_in_number;
use crate::token::{Token, TokenKind};
use text_fault::{TextFault, placed};
use token_cursor::{first_token, skip};
use token_model::{Fault, Kind, Lexeme};

fn kind_of(lexeme: Lexeme) -> TokenKind
    ensures { result ≡ spec.kind_of lexeme }
{
    match lexeme {
        Lexeme::Name => TokenKind::Name,
        Lexeme::Quoted => TokenKind::Quoted,
        Lexeme::Variable => TokenKind::Variable,
        Lexeme::Number => TokenKind::Number,
        Lexeme::End => TokenKind::End,
        Lexeme::Unsupported => TokenKind::Unsupported,
        Lexeme::Finish => TokenKind::Finish,
        _ => TokenKind::Mark,
    }
}

fn fault_kind(lexeme: Lexeme) -> Option<Kind>
    ensures { result ≡ spec.fault_kind lexeme }
{
    match lexeme {
        Lexeme::Bad => Some(Kind::BadToken),
        Lexeme::NumberTooLarge => Some(Kind::NumberTooLarge),
        Lexeme::NameTooLong => Some(Kind::NameTooLong),
        _ => None,
    }
}

/// A token in a text of this length, where so many bytes are left.
fn token_of(len: usize, left: usize, token: token_model::Token) -> Token
    requires short { len < 2 ^ 32 }
    requires ahead { left ≤ len }
    requires within { token.len ≤ left }
    ensures { result ≡ spec.token_of len left token }
{
    let from = len - left;
    Token {
        from: from as u32,
        to: (from + token.len) as u32,
        kind: kind_of(token.lexeme),
    }
}

/// Whether a text ends in a number and nothing of the rest is skipped.
fn touches_number(front: &[u8], rest: &[u8], ahead: &[u8]) -> bool
    ensures { result ≡ (before_place.ends_in_number front.now && nat_eq (length ahead.now) (length rest.now)) }
{
    ahead.len() == rest.len() && ends_in_number(front)
}

/// The first token from this place on, after white and comments. At the end of the text it is `Finish`, which has no
/// bytes. A place within a character is no mistake: its byte begins no token. Takes no memory.
///
/// # Errors
///
/// What stands there begins no token, a number is too large, or a name is too long.
#[tactic(auto, unfolding(crate::specs::Places::next_token))]
pub fn next_token(text: &str, at: u32) -> Result<Token, TextFault>
    requires place { at ≤ length text.now }
    requires short { length text.now < 2 ^ 32 }
    ensures value { result ≡ spec.next_token text.now at }
    ensures within { IfOk result (λ t. (at ≤ t.from) × (t.from ≤ t.to) × (t.to ≤ length text.now)) }
    ensures whole { IfOk result (λ t. IsCharBoundary text.now t.from × IsCharBoundary text.now t.to) }
    ensures token { IfOk result (λ t. spec.IsTokenOf text.now t) }
{
    let (front, rest) = text.as_bytes().split_at(at as usize);
    let ahead = skip(rest);
    let token = first_token(touches_number(front, rest, ahead), ahead);
    let left = ahead.len();
    match fault_kind(token.lexeme) {
        Some(kind) => Err(placed(text.len(), Fault { left, kind })),
        None => Ok(token_of(text.len(), left, token)),
    }
}
