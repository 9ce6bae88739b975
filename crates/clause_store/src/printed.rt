//! The printed text of a name.

ghost use Rattle.std.specs.Prelude.{◌≡◌, ◌++◌, OnOk, OnErr, string_bytes};
ghost use Rattle.std.specs.Char.{encode_utf8};
ghost use Rattle.clause_store.specs.Names as spec;
ghost use Rattle.clause_store.specs.Names.{all_escaped, quoted};

use std::alloc::{AllocError, Global};
use term_store::NoMemory;

/// Whether the byte is an ASCII letter, a digit or `_`.
fn is_word(byte: u8) -> bool
    ensures { result ≡ spec.is_word byte }
{
    byte.is_ascii_alphanumeric() || byte == b'_'
}

fn are_word(bytes: &[u8]) -> bool
    ensures { result ≡ spec.are_word bytes.now }
{
    for byte in bytes {
        if !is_word(*byte) {
            return false;
        }
    }
    true
}

/// Whether the name is a lower-case ASCII letter with ASCII letters, digits and `_` behind it.
fn is_plain(name: &str) -> bool
    ensures { result ≡ spec.is_plain name.now }
{
    match name.as_bytes().split_first() {
        Some((first, rest)) => first.is_ascii_lowercase() && are_word(rest),
        None => false,
    }
}

/// Appends the character as it is written between single quotes.
#[tactic(auto, using(crate::proofs::Escapes::backslash, crate::proofs::Escapes::quote, crate::proofs::Escapes::line_feed, crate::proofs::Escapes::tab, crate::proofs::Escapes::plain_char))]
fn push_escaped(c: char, into: &mut String) -> Result<(), AllocError>
    ensures { OnOk result (string_bytes into.new ≡ string_bytes into.old ++ all_escaped (encode_utf8 c)) }
{
    match c {
        '\\' => into.push_str("\\\\"),
        '\'' => into.push_str("\\'"),
        '\n' => into.push_str("\\n"),
        '\t' => into.push_str("\\t"),
        _ => into.push(c),
    }
}

/// Appends the name between single quotes.
fn push_quoted(name: &str, into: &mut String) -> Result<(), AllocError>
    ensures { OnOk result (string_bytes into.new ≡ string_bytes into.old ++ quoted name.now) }
{
    into.push('\'')?;
    for c in name.chars() {
        push_escaped(c, into)?;
    }
    into.push('\'')
}

/// Appends the name of a predicate or function symbol as it is printed: as it is, where it is a lower-case ASCII
/// letter with ASCII letters, digits and `_` behind it, and else between single quotes, with `\\`, `\'`, `\n` and
/// `\t` for these four characters. After an error `into` is as before.
#[tactic(auto, unfolding(crate::specs::Names::name_text))]
pub fn name_text(alloc: Global, name: &str, into: &mut String) -> Result<(), NoMemory>
    ensures ok { OnOk result (string_bytes into.new ≡ string_bytes into.old ++ spec.name_text name.now) }
    ensures err { OnErr result (string_bytes into.new ≡ string_bytes into.old) }
{
    if is_plain(name) {
        into.push_str(name)?;
        return Ok(());
    }
    let mut text = String::new(alloc);
    push_quoted(name, &mut text)?;
    into.push_str(text.as_str())?;
    Ok(())
}
