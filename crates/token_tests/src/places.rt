//! The tokens of texts, from places on.

ghost use Rattle.std.specs.Prelude.{IfOk, IfSome};
ghost use Rattle.token_at.specs.Places.{IsTokenOf};

use std::alloc::{AllocError, Global};
use text_fault::TextFault;
use token_at::{Token, TokenKind, name_of, next_token};
use token_model::Kind;

/// The first token from this place on. None where there is no such place.
fn token_from(text: &str, at: u32) -> Option<Result<Token, TextFault>>
    ensures { IfSome result (λ answer. IfOk answer (λ token. IsTokenOf text.now token)) }
{
    if text.len() < u32::MAX as usize && at as usize <= text.len() {
        Some(next_token(text, at))
    } else {
        None
    }
}

/// A text, a place, and the token there: where it begins, where it ends and what it is.
type Case = (&'static str, u32, u32, u32, TokenKind);

static CASES: [Case; 34] = [
    // each kind
    ("p(X)", 0, 0, 1, TokenKind::Name),
    ("p(X)", 1, 1, 2, TokenKind::Mark),
    ("p(X)", 2, 2, 3, TokenKind::Variable),
    ("p(X)", 3, 3, 4, TokenKind::Mark),
    ("p(X)", 4, 4, 4, TokenKind::Finish),
    ("'a b'.", 0, 0, 5, TokenKind::Quoted),
    ("'a''b'", 0, 0, 6, TokenKind::Quoted),
    ("42, 7", 0, 0, 2, TokenKind::Number),
    ("9223372036854775807", 0, 0, 19, TokenKind::Number),
    ("p :- q.", 2, 2, 4, TokenKind::Mark),
    ("=:=", 0, 0, 3, TokenKind::Mark),
    ("p.", 1, 1, 2, TokenKind::End),
    ("p.%c", 1, 1, 2, TokenKind::End),
    ("a --> b", 2, 2, 5, TokenKind::Unsupported),
    ("!", 0, 0, 1, TokenKind::Unsupported),
    ("", 0, 0, 0, TokenKind::Finish),
    // after white and comments
    ("p :- q.", 1, 2, 4, TokenKind::Mark),
    (" \t\r\np", 0, 4, 5, TokenKind::Name),
    ("% a\n b", 0, 5, 6, TokenKind::Name),
    ("a% b", 1, 4, 4, TokenKind::Finish),
    ("/* \u{e4} */X", 0, 8, 9, TokenKind::Variable),
    ("/**//**/1", 0, 8, 9, TokenKind::Number),
    // characters of more than one byte
    ("'\u{e4}'b", 0, 0, 4, TokenKind::Quoted),
    ("'\u{e4}'b", 4, 4, 5, TokenKind::Name),
    // within a word
    ("abc", 1, 1, 3, TokenKind::Name),
    ("123", 2, 2, 3, TokenKind::Number),
    ("aB", 1, 1, 2, TokenKind::Variable),
    // a `.` directly after a number
    ("1.5", 1, 1, 2, TokenKind::Unsupported),
    ("007.5", 3, 3, 4, TokenKind::Unsupported),
    ("'a'1.5", 4, 4, 5, TokenKind::Unsupported),
    ("-1.5", 2, 2, 3, TokenKind::Unsupported),
    ("1.", 1, 1, 2, TokenKind::End),
    ("1. 5", 1, 1, 2, TokenKind::End),
    ("1 .", 1, 2, 3, TokenKind::End),
];

#[test]
fn reads_tokens_from_places(rt: HostRuntime) {
    for case in &CASES {
        let (text, at, from, to, kind) = *case;
        let wanted = Token { from, to, kind };
        assert_eq!(rt; token_from(text, at), Some(Ok(wanted)), "{text}");
    }
}

/// A text, a place, and the fault there.
type Refused = (&'static str, u32, u32, Kind);

static REFUSED: [Refused; 18] = [
    (" $", 0, 1, Kind::BadToken),
    ("a 'b", 1, 2, Kind::BadToken),
    ("a\n/* b", 1, 2, Kind::BadToken),
    ("p, 1a", 2, 3, Kind::BadToken),
    ("99999999999999999999a", 0, 0, Kind::BadToken),
    ("X = 9223372036854775808", 3, 4, Kind::NumberTooLarge),
    ("\u{e4}", 0, 0, Kind::BadToken),
    // within a character
    ("\u{e4}a", 1, 1, Kind::BadToken),
    // a `.` that is not directly after a number
    ("p.5", 1, 1, Kind::BadToken),
    ("a1.5", 2, 2, Kind::BadToken),
    ("A1.5", 2, 2, Kind::BadToken),
    ("_1.5", 2, 2, Kind::BadToken),
    ("'1'.5", 3, 3, Kind::BadToken),
    (".5", 0, 0, Kind::BadToken),
    ("1 .5", 1, 2, Kind::BadToken),
    ("1 .5", 2, 2, Kind::BadToken),
    ("1%\n.5", 1, 3, Kind::BadToken),
    ("1/**/.5", 5, 5, Kind::BadToken),
];

#[test]
fn tells_faults_at_places(rt: HostRuntime) {
    for case in &REFUSED {
        let (text, place, at, kind) = *case;
        let wanted = TextFault { at, kind };
        assert_eq!(rt; token_from(text, place), Some(Err(wanted)), "{text}");
    }
}

#[test]
fn refuses_long_names(rt: HostRuntime) -> Result<(), AllocError> {
    let mut text = String::from_str(rt.alloc(), " ,")?;
    text.push_str("a".repeat(rt.alloc(), 255)?.as_str())?;
    let wanted = Token {
        from: 2,
        to: 257,
        kind: TokenKind::Name,
    };
    assert_eq!(rt; token_from(text.as_str(), 2), Some(Ok(wanted)));
    text.push_str("_")?;
    let wanted = TextFault {
        at: 2,
        kind: Kind::NameTooLong,
    };
    assert_eq!(rt; token_from(text.as_str(), 2), Some(Err(wanted)));
    Ok(())
}

/// Whether the token from this place on stands for this name.
fn is_named(alloc: Global, text: &str, at: u32, name: &str) -> Result<bool, AllocError> {
    match token_from(text, at) {
        Some(Ok(token)) => Ok(name_of(alloc, text, &token)?.as_str() == name),
        _ => Ok(false),
    }
}

#[test]
fn tells_names(rt: HostRuntime) -> Result<(), AllocError> {
    let cases: [(&str, u32, &str); 8] = [
        ("p(aB_1)", 1, "("),
        ("p(aB_1)", 2, "aB_1"),
        (" 'a b'", 0, "a b"),
        ("''", 0, ""),
        ("'a''b'", 0, "a'b"),
        ("'\\'\\\\\\n\\t'", 0, "'\\\n\t"),
        ("x/* */'\u{e4}\\n\u{20ac}'", 1, "\u{e4}\n\u{20ac}"),
        ("'p'", 0, "p"),
    ];
    for (text, at, name) in cases {
        assert!(rt; is_named(rt.alloc(), text, at, name)?, "{text}");
    }
    Ok(())
}
