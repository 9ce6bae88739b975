//! The tokens of texts.

use token_cursor::{Cursor, not_utf8};
use token_model::{Kind, Lexeme};

/// A text, what its first token is, where it begins and where it ends.
type Case = (&'static [u8], Lexeme, usize, usize);

static CASES: [Case; 84] = [
    // names and variables
    (b" \t\r\np(X)", Lexeme::Name, 4, 5),
    (b"pQ_9(", Lexeme::Name, 0, 4),
    (b"_ ", Lexeme::Variable, 0, 1),
    (b"V12,", Lexeme::Variable, 0, 3),
    // numbers
    (b"007.", Lexeme::Number, 0, 3),
    (b"9223372036854775807", Lexeme::Number, 0, 19),
    (b"9223372036854775808 ", Lexeme::NumberTooLarge, 0, 19),
    (b"99999999999999999999a", Lexeme::Bad, 0, 20),
    (b"1_", Lexeme::Bad, 0, 1),
    (b"1a", Lexeme::Bad, 0, 1),
    (b"1'a'", Lexeme::Bad, 0, 1),
    (b"1 'a'", Lexeme::Number, 0, 1),
    (b"1\xc3\xa4", Lexeme::Number, 0, 1),
    // quoted names
    (b"''", Lexeme::Quoted, 0, 2),
    (b"'a b'.", Lexeme::Quoted, 0, 5),
    (b"'a''b'.", Lexeme::Quoted, 0, 6),
    (b"'a\\'b'.", Lexeme::Quoted, 0, 6),
    (b"'a\\nb'.", Lexeme::Quoted, 0, 6),
    (b"'a\\\\'.", Lexeme::Quoted, 0, 5),
    (b"'a%b'", Lexeme::Quoted, 0, 5),
    (b"'a/*b'", Lexeme::Quoted, 0, 6),
    (b"'a'b", Lexeme::Quoted, 0, 3),
    // the second quote ends the name where no third one follows in its line
    (b"'a''b", Lexeme::Quoted, 0, 3),
    (b"'a''b\n'", Lexeme::Quoted, 0, 3),
    (b"'''", Lexeme::Quoted, 0, 2),
    (b"''''", Lexeme::Quoted, 0, 4),
    (b"'a", Lexeme::Bad, 0, 1),
    (b"'", Lexeme::Bad, 0, 1),
    (b"'a\nb'", Lexeme::Bad, 0, 1),
    (b"'a\\xb'", Lexeme::Bad, 0, 1),
    (b"'a\\'", Lexeme::Bad, 0, 1),
    // brackets and the like
    (b"(", Lexeme::OpenRound, 0, 1),
    (b")", Lexeme::CloseRound, 0, 1),
    (b"[]", Lexeme::OpenSquare, 0, 1),
    (b"]", Lexeme::CloseSquare, 0, 1),
    (b"{", Lexeme::OpenCurly, 0, 1),
    (b"}", Lexeme::CloseCurly, 0, 1),
    (b",", Lexeme::Comma, 0, 1),
    (b"|", Lexeme::Bar, 0, 1),
    (b":-a", Lexeme::If, 0, 2),
    (b":=", Lexeme::Bad, 0, 1),
    (b":", Lexeme::Bad, 0, 1),
    // relations and operations
    (b"=", Lexeme::Equal, 0, 1),
    (b"=>", Lexeme::Equal, 0, 1),
    (b"=:", Lexeme::Equal, 0, 1),
    (b"=\\", Lexeme::Equal, 0, 1),
    (b"=:=", Lexeme::NumberEqual, 0, 3),
    (b"=<", Lexeme::AtMost, 0, 2),
    (b"<=", Lexeme::Less, 0, 1),
    (b">=", Lexeme::AtLeast, 0, 2),
    (b">", Lexeme::Greater, 0, 1),
    (b"+", Lexeme::Plus, 0, 1),
    (b"-1", Lexeme::Minus, 0, 1),
    (b"--", Lexeme::Minus, 0, 1),
    (b"*", Lexeme::Times, 0, 1),
    (b"/", Lexeme::Over, 0, 1),
    (b"//", Lexeme::Over, 0, 1),
    // what is left out
    (b"=\\=", Lexeme::Unsupported, 0, 3),
    (b"\\==", Lexeme::Unsupported, 0, 3),
    (b"-->", Lexeme::Unsupported, 0, 3),
    (b"==", Lexeme::Unsupported, 0, 2),
    (b"\\=", Lexeme::Unsupported, 0, 2),
    (b"\\+", Lexeme::Unsupported, 0, 2),
    (b"->", Lexeme::Unsupported, 0, 2),
    (b"?-", Lexeme::Unsupported, 0, 2),
    (b"!", Lexeme::Unsupported, 0, 1),
    (b";", Lexeme::Unsupported, 0, 1),
    (b"^", Lexeme::Unsupported, 0, 1),
    (b"\"", Lexeme::Unsupported, 0, 1),
    (b"\\", Lexeme::Bad, 0, 1),
    (b"?", Lexeme::Bad, 0, 1),
    (b"\xc3\xa4", Lexeme::Bad, 0, 1),
    // the end of a clause
    (b".", Lexeme::End, 0, 1),
    (b".\n", Lexeme::End, 0, 1),
    (b".%", Lexeme::End, 0, 1),
    (b"./* c */", Lexeme::Bad, 0, 1),
    (b".a", Lexeme::Bad, 0, 1),
    (b".5", Lexeme::Bad, 0, 1),
    // comments
    (b"% a\n b", Lexeme::Name, 5, 6),
    (b"% a", Lexeme::Finish, 3, 3),
    (b"/**/b", Lexeme::Name, 4, 5),
    (b"/* / ***/ b", Lexeme::Name, 10, 11),
    (b"/*/ b", Lexeme::Bad, 0, 2),
    (b" /* a *", Lexeme::Bad, 1, 3),
];

#[test]
fn reads_first_tokens(rt: HostRuntime) {
    for case in &CASES {
        let (text, lexeme, from, to) = *case;
        let mut cursor = Cursor::new(text);
        assert_eq!(rt; cursor.peek(), lexeme);
        assert_eq!(rt; cursor.left(), text.len().wrapping_sub(from));
        assert_eq!(rt; cursor.take().len(), to.wrapping_sub(from));
    }
}

#[test]
fn knows_a_dot_after_a_number(rt: HostRuntime) {
    let cases: [(&[u8], Lexeme); 8] = [
        (b"1.5", Lexeme::Unsupported),
        (b"1 .5", Lexeme::Bad),
        (b"1%\n.5", Lexeme::Bad),
        (b"a.5", Lexeme::Bad),
        (b"1.", Lexeme::End),
        (b"1. ", Lexeme::End),
        (b"1.a", Lexeme::Bad),
        (b"1%c\n.", Lexeme::End),
    ];
    for (text, lexeme) in cases {
        let mut cursor = Cursor::new(text);
        cursor.take();
        assert_eq!(rt; cursor.peek(), lexeme);
    }
}

#[test]
fn tells_faults(rt: HostRuntime) {
    let cases: [(&[u8], Kind); 6] = [
        (b" ", Kind::UnexpectedEnd),
        (b" $", Kind::BadToken),
        (b"99999999999999999999", Kind::NumberTooLarge),
        (b" !", Kind::Unsupported),
        (b"/*", Kind::BadToken),
        (b"a", Kind::Unexpected),
    ];
    for (text, kind) in cases {
        let mut cursor = Cursor::new(text);
        assert_eq!(rt; cursor.refusal().kind, kind);
        match cursor.expect(Lexeme::Comma) {
            Ok(()) => assert!(rt; false),
            Err(fault) => {
                assert_eq!(rt; fault.kind, kind);
                assert_eq!(rt; fault.left, cursor.left());
            }
        }
        assert!(rt; !cursor.eat(Lexeme::Comma));
    }
}

#[test]
fn passes_what_is_wanted(rt: HostRuntime) {
    let mut cursor = Cursor::new(b"42 ,( ");
    assert!(rt; cursor.sees(Lexeme::Number));
    assert_eq!(rt; cursor.take_number(), 42);
    assert!(rt; cursor.eat(Lexeme::Comma));
    assert!(rt; cursor.expect(Lexeme::OpenRound).is_ok());
    assert_eq!(rt; cursor.peek(), Lexeme::Finish);
    assert_eq!(rt; cursor.fail(Kind::TooDeep).left, 0);
}

#[test]
fn finds_what_is_no_text(rt: HostRuntime) {
    let cases: [(&[u8], Option<usize>); 6] = [
        (b"", None),
        (b"a\xc3\xa4", None),
        (b"a\xc3", Some(1)),
        (b"ab\xffc", Some(2)),
        (b"\xed\xa0\x80", Some(3)),
        (b"a\xe2\x86\x92\x92", Some(1)),
    ];
    for (text, left) in cases {
        assert_eq!(rt; not_utf8(text).map(|fault| fault.left), left);
    }
}
