//! The names that tokens stand for.

ghost use Rattle.std.specs.Prelude.{◌≡◌, ◌≤◌, IfOk, length};
ghost use Rattle.token_cursor.specs.Escapes.{name_by};
ghost use Rattle.token_at.specs.Places as spec;

use crate::token::{Token, TokenKind};
use clp_model::Name;
use std::alloc::{AllocError, Global};
use token_model::Lexeme;

fn spelling<'a>(text: &'a str, token: &Token) -> &'a [u8]
    requires order { token.now.from ≤ token.now.to }
    requires within { token.now.to ≤ length text.now }
    ensures { result.now ≡ spec.spelling text.now token.now }
{
    &text.as_bytes()[token.from as usize..token.to as usize]
}

fn lexeme_of(kind: TokenKind) -> Lexeme
    ensures { spec.named kind ≡ name_by result }
{
    match kind {
        TokenKind::Quoted => Lexeme::Quoted,
        _ => Lexeme::Name,
    }
}

/// The name that a token of this text stands for: a plain one as it is, and a quoted one without its quotes and after
/// its escapes. Of another token these are its bytes.
pub fn name_of(alloc: Global, text: &str, token: &Token) -> Result<Name, AllocError>
    requires { spec.IsTokenOf text.now token.now }
    ensures { IfOk result (λ name. name ≡ spec.named token.now.kind (spec.spelling text.now token.now)) }
{
    token_cursor::name_of(alloc, spelling(text, token), lexeme_of(token.kind))
}
