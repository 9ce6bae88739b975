//! Folding after other steps, and up to the limits.

use crate::stepping::{Run, comes_to, ends_so};
use itoa::Buffer;
use std::alloc::Global;
use std::test::Fail;
use term_store::NoMemory;

const TWO_CALLS: &str = "h(X) :- p(X,Y), q(Y), p(X,Z), q(Z). p(a,b). q(b). q(c).";

/// Folds after other steps.
static AFTER: [Run; 20] = [
    // two folds in one clause
    (
        TWO_CALLS,
        "define n(X) :- p(X,Y), q(Y). fold 1 at [1,2] by n/1 with [] keep [] show [].",
        "fold 6 at [2,3] by n/1 with [] keep [] show [].",
        Ok("p(a,b).\nq(b).\nq(c).\nn(V1) :- p(V1,V2), q(V2).\nh(V1) :- n(V1), n(V1).\n"),
    ),
    (
        TWO_CALLS,
        "define n(X) :- p(X,Y), q(Y). fold 1 at [1,2] by n/1 with [] keep [] show [].",
        "fold 1 at [3,4] by n/1 with [] keep [] show [].",
        Err("1 no clause 1"),
    ),
    (
        TWO_CALLS,
        "define n(X) :- p(X,Y), q(Y). fold 1 at [3,4] by n/1 with [] keep [] show [].",
        "fold 6 at [1,2] by n/1 with [] keep [] show [].",
        Ok("p(a,b).\nq(b).\nq(c).\nn(V1) :- p(V1,V2), q(V2).\nh(V1) :- n(V1), n(V1).\n"),
    ),
    // by two definitions, the second of which has the atoms of the first
    (
        TWO_CALLS,
        "define n(X) :- p(X,Y), q(Y). define m(X,Z) :- p(X,Y), q(Y), p(X,Z). fold 1 at [1,2] by n/1 with [] keep [] show [].",
        "fold 7 at [2,3] by m/2 with [] keep [] show [].",
        Err("13 no match"),
    ),
    (
        TWO_CALLS,
        "define n(X) :- p(X,Y), q(Y). define m(X,Z) :- p(X,Y), q(Y), p(X,Z).",
        "fold 1 at [1,2,3] by m/2 with [] keep [] show [].",
        Ok(
            "p(a,b).\nq(b).\nq(c).\nn(V1) :- p(V1,V2), q(V2).\nm(V1,V2) :- p(V1,V3), q(V3), p(V1,V2).\nh(V1) :- m(V1,V2), q(V2).\n",
        ),
    ),
    // a definition folds neither itself nor another one, and what is made of it by other steps than unfolding doesn't either
    (
        "p(a).",
        "define n(X) :- p(X).",
        "fold 2 at [1] by n/1 with [] keep [] show [].",
        Err("11 unmarked 2"),
    ),
    (
        "p(a).",
        "define n(X) :- p(X). define m(X) :- p(X).",
        "fold 3 at [1] by n/1 with [] keep [] show [].",
        Err("11 unmarked 3"),
    ),
    (
        "p(a).",
        "define n(X) :- p(X), p(X). define m(X) :- p(X). merge 2 at 1,2.",
        "fold 4 at [1] by m/1 with [] keep [] show [].",
        Err("11 unmarked 4"),
    ),
    (
        "p(5).",
        "define n(X) :- p(X), {X > 1}. add 2 row V1 > 0 show find.",
        "fold 3 at [1] by n/1 with [] keep [] show find.",
        Err("11 unmarked 3"),
    ),
    (
        "p(5).",
        "define n(X) :- p(X), {X > 1, X > 0}. drop 2 row 2 show find.",
        "fold 3 at [1] by n/1 with [] keep [] show find.",
        Err("11 unmarked 3"),
    ),
    // its clause once it is unfolded does
    (
        "p(a). p(f(X)) :- p(X).",
        "define n(X) :- p(X). unfold 3 at 1.",
        "fold 5 at [1] by n/1 with [] keep [] show [].",
        Ok("p(a).\np(f(V1)) :- p(V1).\nn(a).\nn(f(V1)) :- n(V1).\n"),
    ),
    // an unmarked clause that is gone is no clause
    (
        "p(a). p(f(X)) :- p(X).",
        "define n(X) :- p(X). unfold 3 at 1.",
        "fold 3 at [1] by n/1 with [] keep [] show [].",
        Err("1 no clause 3"),
    ),
    // by a definition whose clause is unfolded, twice unfolded, or deleted: it is kept as it was made
    (
        "h(X) :- p(X). p(a).",
        "define n(X) :- p(X). unfold 3 at 1.",
        "fold 1 at [1] by n/1 with [] keep [] show [].",
        Ok("p(a).\nn(a).\nh(V1) :- n(V1).\n"),
    ),
    (
        "h(X) :- p(X). p(X) :- r(X). r(a).",
        "define n(X) :- p(X). unfold 4 at 1.",
        "fold 2 at [1] by n/1 with [] keep [] show [].",
        Err("13 no match"),
    ),
    (
        "h(X) :- p(X). p(X) :- r(X). r(a).",
        "define n(X) :- p(X). unfold 4 at 1. unfold 5 at 1.",
        "fold 1 at [1] by n/1 with [] keep [] show [].",
        Ok("p(V1) :- r(V1).\nr(a).\nn(a).\nh(V1) :- n(V1).\n"),
    ),
    (
        "h(X) :- {X < 0, X > 3}, p(X). p(1).",
        "define n(X) :- p(X), {X < 1, X > 2}. delete 3 false show find.",
        "fold 1 at [1] by n/1 with [] keep [] show find.",
        Ok("p(V1) :- {V1 - 1 = 0}.\nh(V1) :- {num(V1)}, n(V1).\n"),
    ),
    (
        "h(X) :- p(X), p(X). p(a).",
        "define n(X) :- p(X), p(X). merge 3 at 1,2.",
        "fold 1 at [1,2] by n/1 with [] keep [] show [].",
        Ok("p(a).\nn(V1) :- p(V1).\nh(V1) :- n(V1).\n"),
    ),
    (
        "h(X) :- p(X), p(X). p(a).",
        "define n(X) :- p(X), p(X). merge 3 at 1,2.",
        "fold 1 at [1] by n/1 with [] keep [] show [].",
        Err("13 no match"),
    ),
    // the clause of a definition that another one's unfolding has made vanish
    (
        "h(X) :- p(X,X). p(a,b).",
        "define n(X) :- p(X,X). unfold 3 at 1.",
        "fold 1 at [1] by n/1 with [] keep [] show [].",
        Ok("p(a,b).\nh(V1) :- n(V1).\n"),
    ),
    // a resolvent of a clause with itself
    (
        "p(X) :- q(X), p(X). q(a).",
        "define n(X) :- q(X), q(X). unfold 1 at 2.",
        "fold 4 at [1,2] by n/1 with [] keep [] show [].",
        Ok("q(a).\nn(V1) :- q(V1), q(V1).\np(V1) :- n(V1), p(V1).\n"),
    ),
];

#[test]
fn folds_after_steps(rt: HostRuntime) -> Result<(), Fail> {
    for (at, run) in AFTER.iter().enumerate() {
        assert!(rt; ends_so(rt.alloc(), run)?, "case {at}");
    }
    Ok(())
}

/// The text of these pieces.
fn joined(alloc: Global, pieces: &[&str]) -> Result<String, NoMemory> {
    let mut text = String::new(alloc);
    for piece in pieces.iter() {
        text.push_str(*piece)?;
    }
    Ok(text)
}

/// So many rows of a variable.
fn bounds(alloc: Global, count: u32) -> Result<String, NoMemory> {
    let mut text = String::from_str(alloc, "X < 1")?;
    for n in 2..=count {
        text.push_str(", X < ")?;
        text.push_str(Buffer::new().format(n))?;
    }
    Ok(text)
}

/// The numbers up to this one, with commas between.
fn numbers(alloc: Global, count: u32) -> Result<String, NoMemory> {
    let mut text = String::from_str(alloc, "1")?;
    for n in 2..=count {
        text.push_str(",")?;
        text.push_str(Buffer::new().format(n))?;
    }
    Ok(text)
}

/// How many rows are kept and how many the definition has, its head and its predicate, what is shown, and the refusal.
type Many = (
    u32,
    u32,
    &'static str,
    &'static str,
    &'static str,
    &'static str,
);

static MANY: [Many; 5] = [
    (100, 29, "n(X)", "n/1", "find", "24 too large rows"),
    // that comes after a variable that is lost, and before the number of certificates
    (100, 29, "n", "n/0", "find", "15 lost variable 1"),
    (100, 29, "n(X)", "n/1", "[]", "24 too large rows"),
    (100, 28, "n(X)", "n/1", "[]", "17 bad multipliers 0 count"),
    (128, 1, "n(X)", "n/1", "[[1]]", "24 too large rows"),
];

fn is_refused(alloc: Global, case: &Many) -> Result<bool, NoMemory> {
    let (kept, others, head, predicate, show, refusal) = *case;
    let rows = bounds(alloc, kept)?;
    let program = joined(alloc, &["h(X) :- p(X), {", rows.as_str(), "}."])?;
    let rows = bounds(alloc, others)?;
    let define = joined(
        alloc,
        &["define ", head, " :- p(X), {", rows.as_str(), "}."],
    )?;
    let keep = numbers(alloc, kept)?;
    let fold = joined(
        alloc,
        &[
            "fold 1 at [1] by ",
            predicate,
            " with [] keep [",
            keep.as_str(),
            "] show ",
            show,
            ".",
        ],
    )?;
    comes_to(
        alloc,
        program.as_str(),
        define.as_str(),
        fold.as_str(),
        Err(refusal),
    )
}

#[test]
fn rows_have_a_limit(rt: HostRuntime) -> Result<(), Fail> {
    for (at, case) in MANY.iter().enumerate() {
        assert!(rt; is_refused(rt.alloc(), case)?, "case {at}");
    }
    Ok(())
}

/// A clause of size 4,095, whose first atom has all but 7 of it; three variables of the definition become one of the
/// clause.
fn large_clause(alloc: Global, step: &str, wanted: Result<&str, &str>) -> Result<bool, NoMemory> {
    let others = ",a".repeat(alloc, 4087)?;
    let program = joined(
        alloc,
        &["h :- {X > 1}, p(f(a", others.as_str(), ")), s(X)."],
    )?;
    comes_to(
        alloc,
        program.as_str(),
        "define n(T,U,V,W) :- p(T), {U > 1, V > 1, W > 1}.",
        step,
        wanted,
    )
}

/// What the first step comes to is a clause of size 4,098.
#[test]
fn shapes_have_a_limit(rt: HostRuntime) -> Result<(), Fail> {
    for (step, refusal) in [
        (
            "fold 1 at [1] by n/4 with [1,1,1] keep [1] show find.",
            "24 too large shape",
        ),
        // that comes after the rows that are to be shown
        (
            "fold 1 at [1] by n/4 with [1,1,1] keep [1] show [find,find,[2,1]].",
            "17 bad multipliers 3 not constant",
        ),
        (
            "fold 1 at [1] by n/4 with [1,1,1] keep [] show [find,find,find,[2,1,0,0]].",
            "17 bad multipliers 4 not constant",
        ),
    ] {
        assert!(rt; large_clause(rt.alloc(), step, Err(refusal))?, "{step}");
    }
    Ok(())
}

/// Without its row the clause has size 4,096.
#[test]
fn shapes_up_to_the_limit(rt: HostRuntime) -> Result<(), Fail> {
    let others = ",a".repeat(rt.alloc(), 4087)?;
    let made = joined(
        rt.alloc(),
        &[
            "n(V1,V2,V3,V4) :- {-V2 + 1 < 0, -V3 + 1 < 0, -V4 + 1 < 0}, p(V1).\nh :- {num(V1)}, n(f(a",
            others.as_str(),
            "),V1,V1,V1), s(V1).\n",
        ],
    )?;
    assert!(rt;
        large_clause(
            rt.alloc(),
            "fold 1 at [1] by n/4 with [1,1,1] keep [] show find.",
            Ok(made.as_str())
        )?
    );
    Ok(())
}

/// A clause with so many rows below a variable and as many above it.
fn between(alloc: Global, count: usize) -> Result<String, NoMemory> {
    let below = ", _ =< X".repeat(alloc, count)?;
    let above = ", X =< _".repeat(alloc, count)?;
    joined(
        alloc,
        &[
            "h(X) :- p(X), {num(X)",
            below.as_str(),
            above.as_str(),
            "}.",
        ],
    )
}

/// Whether a fold in a clause with so many rows below a variable and above it, all of which are kept, is refused so.
fn is_refused_between(
    alloc: Global,
    count: u32,
    show: &str,
    refusal: &str,
) -> Result<bool, NoMemory> {
    let program = between(alloc, count as usize)?;
    let keep = numbers(alloc, count.saturating_mul(2))?;
    let step = joined(
        alloc,
        &[
            "fold 1 at [1] by n/1 with [] keep [",
            keep.as_str(),
            "] show ",
            show,
            ".",
        ],
    )?;
    comes_to(
        alloc,
        program.as_str(),
        "define n(X) :- p(X), {X > 0}.",
        step.as_str(),
        Err(refusal),
    )
}

/// The finder meets more than 1,024 rows, or does not; in front of it stands a place that decides before.
#[test]
fn chains_have_a_limit(rt: HostRuntime) -> Result<(), Fail> {
    assert!(rt; is_refused_between(rt.alloc(), 33, "find", "24 too large chain")?);
    assert!(rt; is_refused_between(rt.alloc(), 33, "[[1]]", "17 bad multipliers 1 count")?);
    assert!(rt; is_refused_between(rt.alloc(), 31, "find", "16 unentailed 1")?);
    Ok(())
}
