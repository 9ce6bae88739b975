//! Definitions.

use crate::stepping::{Case, Run, comes_to, ends_so, is_so};
use std::alloc::Global;
use std::test::Fail;
use term_store::NoMemory;

/// Its predicates are p/1 and q/2.
const PROGRAM: &str = "p(a). q(X,Y) :- p(X), p(Y).";

/// A step, and the clause that the program ends with then.
type Accepted = (&'static str, &'static str);

static ACCEPTED: [Accepted; 19] = [
    ("define n(X) :- p(X).", "n(V1) :- p(V1).\n"),
    ("define n :- p(a).", "n :- p(a).\n"),
    ("define n(Y,X) :- q(X,Y).", "n(V1,V2) :- q(V2,V1).\n"),
    ("define n(X) :- p(X), p(X).", "n(V1) :- p(V1), p(V1).\n"),
    // with variables that are not in the head
    (
        "define n(X) :- q(X,Y), p(Y).",
        "n(V1) :- q(V1,V2), p(V2).\n",
    ),
    (
        "define n(X) :- p(Z), q(X,Y).",
        "n(V1) :- p(V2), q(V1,V3).\n",
    ),
    // the same name with another number of arguments
    ("define p(X,Y) :- q(X,Y).", "p(V1,V2) :- q(V1,V2).\n"),
    ("define 'N'(X) :- p(X).", "'N'(V1) :- p(V1).\n"),
    // with rows and numbers
    (
        "define n(X) :- X > 0, q(X,Y), {Y < 5}.",
        "n(V1) :- {-V1 < 0, V2 - 5 < 0}, q(V1,V2).\n",
    ),
    (
        "define n(X) :- {num(X)}, p(X).",
        "n(V1) :- {num(V1)}, p(V1).\n",
    ),
    (
        "define n(X) :- q(X,3).",
        "n(V1) :- {V2 - 3 = 0}, q(V1,V2).\n",
    ),
    // a number in the head is a variable with a row
    ("define n(5) :- p(X).", "n(V1) :- {V1 - 5 = 0}, p(V2).\n"),
    // a variable of the head may be in rows and in no atom
    (
        "define n(X,Y) :- p(X), {Y < 3}.",
        "n(V1,V2) :- {V2 - 3 < 0}, p(V1).\n",
    ),
    // a variable that is nowhere once the clause is loaded
    ("define n(X) :- p(X), {num(Y)}.", "n(V1) :- p(V1).\n"),
    ("define n(X) :- p(X), {Y - Y < 1}.", "n(V1) :- p(V1).\n"),
    // equations are solved, and rows are not
    ("define n(X) :- X = Y, p(Y).", "n(V1) :- p(V1).\n"),
    ("define n(X) :- p(Y), Y = f(X).", "n(V1) :- p(f(V1)).\n"),
    (
        "define n(X) :- p(X), X = 1, X = 2.",
        "n(V1) :- {V1 - 1 = 0, V1 - 2 = 0}, p(V1).\n",
    ),
    (
        "define n(X) :- p(X), {1 < 0}.",
        "n(V1) :- {1 < 0}, p(V1).\n",
    ),
];

/// Whether a definition is accepted, and its clause comes last.
fn is_defined(alloc: Global, case: &Accepted) -> Result<bool, NoMemory> {
    let mut made = String::from_str(alloc, "p(a).\nq(V1,V2) :- p(V1), p(V2).\n")?;
    made.push_str(case.1)?;
    comes_to(alloc, PROGRAM, "", case.0, Ok(made.as_str()))
}

#[test]
fn defines(rt: HostRuntime) -> Result<(), Fail> {
    for (at, case) in ACCEPTED.iter().enumerate() {
        assert!(rt; is_defined(rt.alloc(), case)?, "case {at}");
    }
    Ok(())
}

static REFUSED: [Case; 41] = [
    // loading comes before all else
    (
        "define p(a) :- r(X), {4611686018427387904*X + 4611686018427387904*Y + 1 =< 0}, X = Y.",
        Err("23 overflow 0"),
    ),
    (
        "define n(X) :- p(X), {4611686018427387904*X + 4611686018427387904*Y + 1 =< 0}, X = Y.",
        Err("23 overflow 0"),
    ),
    ("define p(a) :- r(X), X = f(X).", Err("7 empty definition")),
    ("define n(X) :- p(X), a = b.", Err("7 empty definition")),
    (
        "define n(X) :- p(X), {num(X)}, X = a.",
        Err("7 empty definition"),
    ),
    (
        "define n(X) :- a = b, {4611686018427387904*X + 4611686018427387904*Y + 1 =< 0}, X = Y.",
        Err("7 empty definition"),
    ),
    // the predicate of the head
    ("define p(X) :- q(X,X).", Err("5 not fresh p/1")),
    ("define q(X,Y) :- p(X), p(Y).", Err("5 not fresh q/2")),
    ("define p(X) :- p(X).", Err("5 not fresh p/1")),
    ("define p(a) :- q(X,X).", Err("5 not fresh p/1")),
    ("define q(X,X) :- p(X).", Err("5 not fresh q/2")),
    // the arguments of the head
    ("define n(X,X) :- q(X,Y).", Err("6 head not variables 2")),
    ("define n(X,a) :- p(X).", Err("6 head not variables 2")),
    ("define n(f(X)) :- p(X).", Err("6 head not variables 1")),
    ("define n([]) :- p(X).", Err("6 head not variables 1")),
    (
        "define n(Y,X,a,X) :- q(X,Y).",
        Err("6 head not variables 3"),
    ),
    (
        "define n(X,Y) :- q(X,Y), X = Y.",
        Err("6 head not variables 2"),
    ),
    ("define n(X) :- p(X), X = a.", Err("6 head not variables 1")),
    ("define n(a).", Err("6 head not variables 1")),
    ("define n(X,X) :- X > 0.", Err("6 head not variables 2")),
    // no atom
    ("define n(X) :- X > 0.", Err("7 empty definition")),
    ("define n(X).", Err("7 empty definition")),
    ("define n.", Err("7 empty definition")),
    ("define n(X) :- true.", Err("7 empty definition")),
    // the predicates of the body, one atom after another
    ("define n(X) :- n(X).", Err("8 recursive definition n/1")),
    (
        "define n(X) :- p(X), n(X).",
        Err("8 recursive definition n/1"),
    ),
    (
        "define 'N'(X) :- 'N'(X).",
        Err("8 recursive definition 'N'/1"),
    ),
    (
        "define n(X) :- n(X), r(X).",
        Err("8 recursive definition n/1"),
    ),
    ("define n(X) :- r(X), n(X).", Err("9 unknown predicate r/1")),
    ("define n(X) :- r(X).", Err("9 unknown predicate r/1")),
    ("define n(X) :- p(X), r.", Err("9 unknown predicate r/0")),
    (
        "define n(X) :- p(X,X), q(X).",
        Err("9 unknown predicate p/2"),
    ),
    ("define n(X) :- n(X,X).", Err("9 unknown predicate n/2")),
    (
        "define n(X,Y) :- n(X,X).",
        Err("8 recursive definition n/2"),
    ),
    ("define n(X,Y) :- r(X).", Err("9 unknown predicate r/1")),
    // variables of the head alone, or of rows alone
    ("define n(X,Y) :- p(X).", Err("10 loose variable 2")),
    (
        "define n(X,Y) :- p(Y), {num(X)}.",
        Err("10 loose variable 1"),
    ),
    ("define n(X) :- p(X), {Y < 3}.", Err("10 loose variable 2")),
    (
        "define n(X) :- q(X,Y), {W < 3, Y < W}.",
        Err("10 loose variable 3"),
    ),
    (
        "define n(X,Y) :- p(X), {W < Y}.",
        Err("10 loose variable 3"),
    ),
    (
        "define n(X,Y,Z) :- q(X,Z), {W < 3}.",
        Err("10 loose variable 2"),
    ),
];

#[test]
fn refuses_definitions(rt: HostRuntime) -> Result<(), Fail> {
    for (at, case) in REFUSED.iter().enumerate() {
        assert!(rt; is_so(rt.alloc(), PROGRAM, case)?, "case {at}");
    }
    Ok(())
}

static RUNS: [Run; 9] = [
    // after other definitions
    (
        "p(a).",
        "define n(X) :- p(X).",
        "define m(X) :- p(X), p(X).",
        Ok("p(a).\nn(V1) :- p(V1).\nm(V1) :- p(V1), p(V1).\n"),
    ),
    (
        "p(a).",
        "define n(X) :- p(X).",
        "define n(X) :- p(X).",
        Err("5 not fresh n/1"),
    ),
    (
        "p(a).",
        "define n(X) :- p(X).",
        "define n(a) :- p(X).",
        Err("5 not fresh n/1"),
    ),
    (
        "p(a).",
        "define n(X) :- p(X).",
        "define m(X) :- n(X).",
        Err("8 recursive definition n/1"),
    ),
    (
        "p(a).",
        "define n(X) :- p(X).",
        "define m(X) :- p(X), n(X), r(X).",
        Err("8 recursive definition n/1"),
    ),
    // a predicate stays defined whose definition is unfolded or deleted
    (
        "p(a).",
        "define n(X) :- p(X). unfold 2 at 1.",
        "define n(X) :- p(X).",
        Err("5 not fresh n/1"),
    ),
    (
        "p(a).",
        "define n(X) :- p(X), {1 < 0}. delete 2 false show find.",
        "define m(X) :- n(X).",
        Err("8 recursive definition n/1"),
    ),
    // predicates occur in a program in clauses without instance too
    (
        "p(X) :- X = f(X), r(X). q(a).",
        "",
        "define r(X) :- q(X).",
        Err("5 not fresh r/1"),
    ),
    (
        "p(X) :- X = f(X), r(X). q(a).",
        "",
        "define n(X) :- r(X), p(X).",
        Ok("q(a).\nn(V1) :- r(V1), p(V1).\n"),
    ),
];

#[test]
fn defines_after_steps(rt: HostRuntime) -> Result<(), Fail> {
    for (at, run) in RUNS.iter().enumerate() {
        assert!(rt; ends_so(rt.alloc(), run)?, "case {at}");
    }
    Ok(())
}

/// The first words of a definition, a piece so often, the last words, and the refusal.
type Long = (
    &'static str,
    &'static str,
    usize,
    &'static str,
    &'static str,
);

static LONG: [Long; 14] = [
    ("define n :- p(a)", ", p(a)", 64, ".", "24 too large atoms"),
    // loading comes before all else
    ("define p(a) :- r", ", r", 64, ".", "24 too large atoms"),
    ("define p(a) :- r(X", ",X", 4093, ").", "24 too large shape"),
    (
        "define p(a) :- r(_",
        ",_",
        256,
        ").",
        "24 too large variables",
    ),
    (
        "define n(X) :- r",
        ", r",
        63,
        ".",
        "9 unknown predicate r/0",
    ),
    (
        "define n(X) :- r(X",
        ",X",
        4092,
        ").",
        "9 unknown predicate r/4093",
    ),
    (
        "define n(X) :- p(X), X = f(X",
        ",X",
        4095,
        ").",
        "24 too large shape",
    ),
    (
        "define n(X) :- p(X), X = f(X",
        ",X",
        4094,
        ").",
        "7 empty definition",
    ),
    (
        "define n(X) :- p(X)",
        ", X < _",
        129,
        ".",
        "24 too large rows",
    ),
    (
        "define n(X) :- p(X)",
        ", X < _",
        128,
        ".",
        "10 loose variable 2",
    ),
    // two of these at once: a row out of range, the shape, the atoms, the variables, the rows
    (
        "define n(X) :- X = Y, {4611686018427387904*X + 4611686018427387904*Y + 1 =< 0}, p(X",
        ",X",
        4095,
        ").",
        "23 overflow 0",
    ),
    (
        "define n(X) :- p(X)",
        ", r(f(X,X,X,X,X,X,X,X,X,X,X,X,X,X,X,X,X,X,X,X,X,X,X,X,X,X,X,X,X,X,X,X),f(X,X,X,X,X,X,X,X,X,X,X,X,X,X,X,X,X,X,X,X,X,X,X,X,X,X,X,X,X,X,X,X))",
        64,
        ".",
        "24 too large shape",
    ),
    (
        "define n :- p(a)",
        ", r(_,_,_,_)",
        64,
        ".",
        "24 too large atoms",
    ),
    (
        "define n(X) :- p(X)",
        ", _ < _",
        129,
        ".",
        "24 too large variables",
    ),
];

fn is_refused(alloc: Global, case: &Long) -> Result<bool, NoMemory> {
    let (first, piece, times, last, refusal) = *case;
    let mut step = String::from_str(alloc, first)?;
    step.push_str(piece.repeat(alloc, times)?.as_str())?;
    step.push_str(last)?;
    comes_to(alloc, PROGRAM, "", step.as_str(), Err(refusal))
}

#[test]
fn refuses_long_definitions(rt: HostRuntime) -> Result<(), Fail> {
    for (at, case) in LONG.iter().enumerate() {
        assert!(rt; is_refused(rt.alloc(), case)?, "case {at}");
    }
    Ok(())
}

/// So many clauses, then a definition, and its refusal, empty where it is accepted.
type Many = (usize, &'static str, &'static str);

static MANY: [Many; 3] = [
    (4096, "define n :- p.", "24 too large clauses"),
    (4096, "define n(X) :- p.", "10 loose variable 1"),
    (4095, "define n :- p.", ""),
];

fn ends_with(alloc: Global, case: &Many) -> Result<bool, NoMemory> {
    let (count, step, refusal) = *case;
    let program = "p.\n".repeat(alloc, count)?;
    if !refusal.is_empty() {
        return comes_to(alloc, program.as_str(), "", step, Err(refusal));
    }
    let mut made = String::from_str(alloc, program.as_str())?;
    made.push_str("n :- p.\n")?;
    comes_to(alloc, program.as_str(), "", step, Ok(made.as_str()))
}

#[test]
fn clauses_have_a_limit(rt: HostRuntime) -> Result<(), Fail> {
    for (at, case) in MANY.iter().enumerate() {
        assert!(rt; ends_with(rt.alloc(), case)?, "case {at}");
    }
    Ok(())
}
