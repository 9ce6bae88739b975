//! Goals, and clauses within a text.

ghost use Rattle.std.specs.Prelude.{◌<◌, ◌^◌, length};

use crate::showing::shows;
use clp_reader::{clause_at, read_goal};
use std::alloc::Global;
use text_fault::{TextError, TextFault};
use token_model::Kind;

/// A text, and its one clause or its first fault.
type Goal = (&'static str, Result<&'static str, (u32, Kind)>);

static GOALS: [Goal; 9] = [
    ("p(X) :- X > 1", Ok("p(V1) :- {-V1 + 1 < 0}. N")),
    ("p.", Ok("p.")),
    ("p % q", Ok("p.")),
    ("", Err((0, Kind::UnexpectedEnd))),
    ("p :- ", Err((5, Kind::UnexpectedEnd))),
    ("p q", Err((2, Kind::Unexpected))),
    ("p. q", Err((3, Kind::Unexpected))),
    (":- p.", Err((0, Kind::Unexpected))),
    ("p :- X", Err((5, Kind::NotAnAtom))),
];

/// Whether a text is this clause, or has this first fault.
fn is_goal(alloc: Global, text: &str, wanted: &Result<&'static str, (u32, Kind)>) -> bool
    requires { length text.now < 2 ^ 32 }
{
    match (read_goal(alloc, text.as_bytes()), wanted) {
        (Ok(found), Ok(shown)) => shows(alloc, &found, shown),
        (Err(TextError::Fault(fault)), Err((at, kind))) => {
            fault.at == *at && fault.kind == *kind
        }
        _ => false,
    }
}

#[test]
fn reads_goals(rt: HostRuntime) {
    for (text, wanted) in GOALS.iter() {
        assert!(rt; text.len() < 4096);
        assert!(rt; is_goal(rt.alloc(), text, wanted), "{text}");
    }
}

const TEXT: &str = "p. q(X) :- X > 1. % \u{e4}\n r";

/// A place of the text, and the clause there with the place after it.
static CLAUSES: [(u32, &'static str, u32); 3] = [
    (0, "p.", 2),
    (2, "q(V1) :- {-V1 + 1 < 0}. N", 17),
    (3, "q(V1) :- {-V1 + 1 < 0}. N", 17),
];

/// A place of the text, and the first fault of what stands there.
static FAULTS: [(u32, u32, Kind); 5] = [
    (1, 1, Kind::Unexpected),
    (4, 4, Kind::NotAnAtom),
    (5, 6, Kind::Unexpected),
    (17, 25, Kind::UnexpectedEnd),
    (25, 25, Kind::UnexpectedEnd),
];

/// Whether this clause stands at a place, and this is the place after it.
fn stands(alloc: Global, at: u32, wanted: &str, end: u32) -> bool {
    if !TEXT.is_char_boundary(at as usize) || TEXT.len() >= 4096 {
        return false;
    }
    match clause_at(alloc, TEXT, at) {
        Ok((found, after)) => after == end && shows(alloc, &found, wanted),
        Err(_) => false,
    }
}

/// The first fault of what stands at a place.
fn fault_at(alloc: Global, at: u32) -> Option<TextFault> {
    if !TEXT.is_char_boundary(at as usize) || TEXT.len() >= 4096 {
        return None;
    }
    match clause_at(alloc, TEXT, at) {
        Err(TextError::Fault(fault)) => Some(fault),
        _ => None,
    }
}

#[test]
fn reads_clauses_within_a_text(rt: HostRuntime) {
    for (at, wanted, end) in CLAUSES.iter() {
        assert!(rt; stands(rt.alloc(), *at, wanted, *end), "{at}");
    }
    for case in FAULTS.iter() {
        let (place, at, kind) = *case;
        assert_eq!(rt;
            fault_at(rt.alloc(), place),
            Some(TextFault { at, kind }),
            "{place}"
        );
    }
}
