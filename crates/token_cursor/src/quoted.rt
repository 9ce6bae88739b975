//! Quoted names.

ghost use Rattle.std.specs.Prelude.{◌≡◌, ◌≤◌, ◌<◌, ◌-◌, length, take, drop, IfSome};
ghost use Rattle.token_model.specs.Names as spec;
ghost use Rattle.token_cursor.specs.Escapes as escape;

use crate::word::unless_long;
use token_model::{Lexeme, Token};

/// Where a byte of a quoted name stands.
#[derive(Clone, Copy)]
pub enum Place {
    Inside,
    AfterQuote,
    AfterBackslash,
}

pub fn is_escape(b: u8) -> bool
    ensures { result ≡ spec.is_escape b }
{
    b == b'\\' || b == b'\'' || b == b'n' || b == b't'
}

/// How many bytes there are up to and with the quote that ends a quoted name, of which this is what follows the first
/// quote. The last place at which the name may have ended is remembered, since it may turn out not to go on.
#[tactic(auto, unfolding(token_model::specs::Names::closing, token_model::specs::Names::after_quote, token_model::specs::Names::after_backslash))]
fn closing(text: &[u8]) -> Option<usize>
    ensures value { result ≡ spec.closing text.now }
    ensures within { IfSome result (λ n. (0 < n) × (n ≤ length text.now)) }
{
    let mut last = None;
    let mut place = Place::Inside;
    for (at, b) in text.iter().enumerate() {
        place = match place {
            Place::Inside => match *b {
                b'\'' => Place::AfterQuote,
                b'\\' => Place::AfterBackslash,
                b'\n' => return last,
                _ => Place::Inside,
            },
            Place::AfterQuote => {
                if *b != b'\'' {
                    return Some(at);
                }
                last = Some(at);
                Place::Inside
            }
            Place::AfterBackslash => {
                if !is_escape(*b) {
                    return last;
                }
                Place::Inside
            }
        };
    }
    match place {
        Place::AfterQuote => Some(text.len()),
        _ => last,
    }
}

/// What a quoted name has between its quotes.
pub fn between_quotes(spelling: &[u8]) -> &[u8]
    ensures { result.now ≡ take (length spelling.now - 2) (drop 1 spelling.now) }
{
    match spelling {
        [_, inside @ .., _] => inside,
        _ => &[],
    }
}

/// Whether a byte of a name only marks that the next one is meant, where the byte before it was such a mark or not.
pub fn is_mark(after_mark: bool, b: u8) -> bool
    ensures { result ≡ escape.is_mark after_mark b }
{
    !after_mark && (b == b'\'' || b == b'\\')
}

/// How many bytes the name between two quotes has after its escapes.
#[tactic(auto, unfolding(token_model::specs::Names::unescaped, token_model::specs::Names::after_mark))]
fn unescaped_len(inside: &[u8]) -> usize
    ensures { result ≡ length (spec.unescaped inside.now) }
{
    let mut len = 0;
    let mut marked = false;
    for b in inside {
        marked = is_mark(marked, *b);
        if !marked {
            len += 1;
        }
    }
    len
}

/// A quoted name, or the quote that begins none.
#[tactic(auto, unfolding(token_model::specs::Names::quoted))]
pub fn quoted(text: &[u8]) -> Token
    requires { 0 < length text.now }
    ensures value { result ≡ spec.quoted text.now }
    ensures within { result.len ≤ length text.now }
{
    match closing(&text[1..]) {
        None => Token {
            lexeme: Lexeme::Bad,
            len: 1,
        },
        Some(end) => {
            let len = unescaped_len(between_quotes(&text[..end + 1]));
            Token {
                lexeme: unless_long(Lexeme::Quoted, len),
                len: end + 1,
            }
        }
    }
}
