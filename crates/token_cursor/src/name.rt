//! The names that tokens stand for.

ghost use Rattle.std.specs.Prelude.{◌≡◌, IfOk};
ghost use Rattle.std.specs.Str.{IsUtf8};
ghost use Rattle.token_model.specs.Names as spec;
ghost use Rattle.token_cursor.specs.Escapes as escape;

use crate::quoted::{between_quotes, is_mark};
use clp_model::Name;
use std::alloc::{AllocError, Global};
use std::str;
use token_model::Lexeme;

/// The byte that is meant, where the one before it only marks it or not.
fn meant(after_mark: bool, b: u8) -> u8
    ensures { result ≡ escape.meant after_mark b }
{
    match b {
        b'n' if after_mark => b'\n',
        b't' if after_mark => b'\t',
        _ => b,
    }
}

/// What is between two quotes, after its escapes.
#[tactic(auto, unfolding(token_model::specs::Names::unescaped, token_model::specs::Names::after_mark))]
fn unescaped(alloc: Global, inside: &[u8]) -> Result<Vec<u8>, AllocError>
    ensures { IfOk result (λ v. v.items ≡ spec.unescaped inside.now) }
{
    let mut name = Vec::with_capacity(alloc, inside.len())?;
    let mut marked = false;
    for b in inside {
        let marks = is_mark(marked, *b);
        if !marks {
            name.push(meant(marked, *b))?;
        }
        marked = marks;
    }
    Ok(name)
}

/// The text of bytes that are whole characters.
fn text_of(bytes: &[u8]) -> &str
    requires { IsUtf8 bytes.now }
    ensures { result.now ≡ bytes.now }
{
    match str::from_utf8(bytes) {
        Ok(text) => text,
        Err(_) => unreachable!(),
    }
}

/// The name that a token of this spelling stands for: a plain one as it is, and a quoted one without its quotes and
/// after its escapes.
pub fn name_of(alloc: Global, spelling: &[u8], lexeme: Lexeme) -> Result<Name, AllocError>
    requires { IsUtf8 (escape.name_by lexeme spelling.now) }
    ensures { IfOk result (λ name. name ≡ escape.name_by lexeme spelling.now) }
{
    match lexeme {
        Lexeme::Quoted => {
            let bytes = unescaped(alloc, between_quotes(spelling))?;
            Name::copy_of(alloc, text_of(bytes.as_slice()))
        }
        _ => Name::copy_of(alloc, text_of(spelling)),
    }
}
