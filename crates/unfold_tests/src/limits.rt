//! Unfoldings up to the limits, and past them.

use crate::building::{begun, printed};
use clp_model::Limit;
use map_replay::{Refusal, State, Step, apply};
use std::alloc::{AllocError, Global};
use std::test::Fail;
use term_store::NoMemory;

/// A text: its first words, a piece this many times, and the last words.
type Words = (&'static str, &'static str, usize, &'static str);

/// The words of two clauses, of which the second is there so often; and what refuses the unfolding of the first at its
/// first atom, if something does.
type Case = (Words, Words, usize, Option<Limit>);

static CASES: [Case; 10] = [
    // body atoms
    (
        ("p :- q", ", r", 62, "."),
        ("q :- s", ", s", 1, "."),
        1,
        None,
    ),
    (
        ("p :- q", ", r", 62, "."),
        ("q :- s", ", s", 2, "."),
        1,
        Some(Limit::Atoms),
    ),
    // variables
    (
        ("p(_", ",_", 127, ") :- q."),
        ("q :- s(_", ",_", 127, ")."),
        1,
        None,
    ),
    (
        ("p(_", ",_", 127, ") :- q."),
        ("q :- s(_", ",_", 128, ")."),
        1,
        Some(Limit::Variables),
    ),
    // the nodes of a clause
    (
        ("p(X,X,b) :- q(X).", "", 0, ""),
        ("q(f(a", ",a", 2045, "))."),
        1,
        None,
    ),
    (
        ("p(X,X,b,b) :- q(X).", "", 0, ""),
        ("q(f(a", ",a", 2045, "))."),
        1,
        Some(Limit::Shape),
    ),
    // live clauses
    (("p :- q, r.", "", 0, ""), ("q.", "", 0, ""), 2048, None),
    (
        ("p :- p.", "", 0, ""),
        ("p.", "", 0, ""),
        2048,
        Some(Limit::Clauses),
    ),
    // the shape comes before the atoms, and the atoms before the variables
    (
        ("p(X,X,b,b) :- q(X)", ", r", 63, "."),
        ("q(f(a", ",a", 2045, ")) :- s, s."),
        1,
        Some(Limit::Shape),
    ),
    (
        ("p :- q", ", r(_,_)", 63, "."),
        ("q :- s, s(_", ",_", 131, ")."),
        1,
        Some(Limit::Atoms),
    ),
];

fn text_of(alloc: Global, words: &Words) -> Result<String, AllocError> {
    let (first, piece, times, last) = *words;
    let mut text = String::from_str(alloc, first)?;
    text.push_str(piece.repeat(alloc, times)?.as_str())?;
    text.push_str(last)?;
    Ok(text)
}

/// Whether a step is refused by this limit.
fn is_past(found: &Result<Step, Refusal>, limit: Limit) -> bool {
    match found {
        Err(Refusal::TooLarge(past)) => *past == limit,
        _ => false,
    }
}

/// Whether unfolding the first clause at its first atom is accepted, or refused by this limit with the program as it
/// was.
fn ends_so(alloc: Global, state: &mut State, limit: Option<Limit>) -> Result<bool, NoMemory> {
    let before = printed(alloc, state)?;
    let found = apply(state, &Step::Unfold { id: 1, at: 1 });
    match limit {
        None => Ok(found.is_ok() && state.steps() == 1),
        Some(limit) => Ok(
            is_past(&found, limit)
                && printed(alloc, state)?.as_str() == before.as_str()
                && state.history().is_empty(),
        ),
    }
}

fn is_so(alloc: Global, case: &Case) -> Result<bool, NoMemory> {
    let (first, other, times, limit) = *case;
    let mut text = text_of(alloc, &first)?;
    let other = text_of(alloc, &other)?;
    for _ in 0..times {
        text.push_str("\n")?;
        text.push_str(other.as_str())?;
    }
    match begun(alloc, text.as_str()) {
        Some(mut state) => ends_so(alloc, &mut state, limit),
        None => Ok(false),
    }
}

#[test]
fn unfolds_up_to_the_limits(rt: HostRuntime) -> Result<(), Fail> {
    for (at, case) in CASES.iter().enumerate() {
        assert!(rt; is_so(rt.alloc(), case)?, "case {at}");
    }
    Ok(())
}
