//! The first faults of programs and their places.

ghost use Rattle.std.specs.Prelude.{◌<◌, ◌^◌, length};

use clp_reader::read_program;
use std::alloc::Global;
use text_fault::{TextError, TextFault};
use token_model::Kind;

/// A text, and how many bytes stand before its first fault.
type Case = (&'static [u8], u32, Kind);

static CASES: [Case; 48] = [
    // tokens
    (b"p(\xff).", 2, Kind::NotUtf8),
    (b"p( . q(\xff).", 7, Kind::NotUtf8),
    (b"p.q", 1, Kind::BadToken),
    (b"p. q(#).", 5, Kind::BadToken),
    (b"p :- X, #.", 8, Kind::BadToken),
    (b"p('a).", 2, Kind::BadToken),
    (b"p. /* q.", 3, Kind::BadToken),
    (b"p(9223372036854775808).", 2, Kind::NumberTooLarge),
    (b"p :- \\+ q.", 5, Kind::Unsupported),
    (b"p(1.5).", 3, Kind::Unsupported),
    (b":- 9223372036854775808.", 3, Kind::NumberTooLarge),
    // grammar
    (b"p(", 2, Kind::UnexpectedEnd),
    (b"p :- q", 6, Kind::UnexpectedEnd),
    (b"p :- q % .", 10, Kind::UnexpectedEnd),
    (b":- a", 4, Kind::UnexpectedEnd),
    (b"p q.", 2, Kind::Unexpected),
    (b"p().", 2, Kind::Unexpected),
    (b"p(a,).", 4, Kind::Unexpected),
    (b"p :- .", 5, Kind::Unexpected),
    (b"p :- q, .", 8, Kind::Unexpected),
    (b"p :- q :- r.", 7, Kind::Unexpected),
    (b"p([a|b,c]).", 6, Kind::Unexpected),
    (b"p([a,]).", 5, Kind::Unexpected),
    (b"p(- - 1).", 4, Kind::Unexpected),
    (b"p :- X < Y < Z.", 11, Kind::Unexpected),
    (b"p > q.", 2, Kind::Unexpected),
    (b"p :- {}.", 6, Kind::Unexpected),
    (b"p :- {q}.", 7, Kind::Unexpected),
    (b"p :- {num(X), num(1)}.", 20, Kind::Unexpected),
    (b"p :- {num(X,Y)}.", 14, Kind::Unexpected),
    // heads and goals: grammar comes first, and then they do, in their order
    (b"p :- X.", 5, Kind::NotAnAtom),
    (b"p :- ((X)).", 5, Kind::NotAnAtom),
    (b"p :- q, 1.", 8, Kind::NotAnAtom),
    (b"[] :- p.", 0, Kind::NotAnAtom),
    (b"p + q.", 0, Kind::NotAnAtom),
    (b"X :- true.", 0, Kind::NotAnAtom),
    (b"true :- X.", 0, Kind::Reserved),
    (b"p. ('true').", 3, Kind::Reserved),
    (b"p :- X, q", 9, Kind::UnexpectedEnd),
    (b"p :- X. #", 5, Kind::NotAnAtom),
    (b"p(X*Y) :- Z.", 10, Kind::NotAnAtom),
    // expressions: operands before their operator, left before right
    (b"p :- X*Y > 0.", 6, Kind::NotLinear),
    (b"p(1/X).", 3, Kind::NotLinear),
    (b"p :- X > a.", 9, Kind::NotLinear),
    (b"p :- 1/(2 - 2) > a.", 6, Kind::ZeroDivisor),
    (b"p(f(1/0)) :- X*Y > 0.", 5, Kind::ZeroDivisor),
    (
        b"p :- 9223372036854775807 + 1 > X.",
        25,
        Kind::NumberTooLarge,
    ),
    (b"p :- 9223372036854775807 > -1.", 25, Kind::NumberTooLarge),
];

/// The first fault of a text.
fn fault_of(alloc: Global, text: &[u8]) -> Option<TextFault>
    requires { length text.now < 2 ^ 32 }
{
    match read_program(alloc, text) {
        Err(TextError::Fault(fault)) => Some(fault),
        _ => None,
    }
}

#[test]
fn tells_first_faults(rt: HostRuntime) {
    for (number, case) in CASES.iter().enumerate() {
        let (text, at, kind) = *case;
        assert!(rt; text.len() < 4096);
        assert_eq!(rt;
            fault_of(rt.alloc(), text),
            Some(TextFault { at, kind }),
            "case {number}"
        );
    }
}

/// The first fault of more facts `p.` than may be.
fn fault_of_many(alloc: Global) -> Option<TextFault> {
    let mut text = String::new(alloc);
    for _fact in 0..4097 {
        text.push_str("p. ").ok()?;
    }
    if text.len() < 65536 {
        fault_of(alloc, text.as_bytes())
    } else {
        None
    }
}

#[test]
fn tells_the_first_clause_that_is_too_many(rt: HostRuntime) {
    let wanted = TextFault {
        at: 12_288,
        kind: Kind::TooMany,
    };
    assert_eq!(rt; fault_of_many(rt.alloc()), Some(wanted));
}
