//! Definitions and folds through the top call.

use crate::calls::{call, files, is_answer};
use map_main::Status;
use std::alloc::{AllocError, Global};

/// The length and the sum of a list.
const LISTS: &str =
    "len([],0).\nlen([X|T],N) :- N = M+1, len(T,M).\nsum([],0).\nsum([X|T],S) :- S = R+X, sum(T,R).\n";

/// Both are computed in one pass.
const ONE_PASS: &str =
    "map script 1.\ndefine both(V1,V2,V3) :- len(V1,V2), sum(V1,V3).\nunfold 5 at 1.\nunfold 6 at 1.\nunfold 7 at 2.\nfold 9 at [1,2] by both/3 with [] keep [1,2] show [].\n";

const LISTS_IN_ONE_PASS: &str =
    "len([],V1) :- {V1 = 0}.\nlen([V1|V2],V3) :- {V3 - V4 - 1 = 0}, len(V2,V4).\nsum([],V1) :- {V1 = 0}.\nsum([V1|V2],V3) :- {V1 - V3 + V4 = 0}, sum(V2,V4).\nboth([],V1,V2) :- {V1 = 0, V2 = 0}.\nboth([V1|V2],V3,V4) :- {V3 - V5 - 1 = 0, V1 - V4 + V6 = 0}, both(V2,V5,V6).\n";

/// Each fold of the definition of `n` by itself would leave no clause that proves an atom of it.
const ONE_FACT: &str = "p(a).\n";

const BOUNDED: &str = "h(X) :- X > 3, p(X).\np(5).\n";

/// The words of a call on files P and S, the files, and the status and text that it must come to.
type Case = (
    &'static str,
    &'static str,
    &'static str,
    Status,
    &'static str,
);

static CASES: [Case; 15] = [
    (
        "map replay P S",
        LISTS,
        ONE_PASS,
        Status::Ok,
        LISTS_IN_ONE_PASS,
    ),
    // the script is printed as it is
    ("map fill P S", LISTS, ONE_PASS, Status::Ok, ONE_PASS),
    // what is printed is read again
    (
        "map replay P S",
        LISTS_IN_ONE_PASS,
        "map script 1.",
        Status::Ok,
        LISTS_IN_ONE_PASS,
    ),
    // certificates are found for the definition's row and for the row that is dropped, and printed
    (
        "map replay P S",
        BOUNDED,
        "map script 1. define n(X) :- p(X), {X > 3}. fold 1 at [1] by n/1 with [] keep [] show find.",
        Status::Ok,
        "p(V1) :- {V1 - 5 = 0}.\nn(V1) :- {-V1 + 3 < 0}, p(V1).\nh(V1) :- {num(V1)}, n(V1).\n",
    ),
    (
        "map fill P S",
        BOUNDED,
        "map script 1. define n(X) :- p(X), {X > 3}. fold 1 at [1] by n/1 with [] keep [] show find.",
        Status::Ok,
        "map script 1.\ndefine n(V1) :- {-V1 + 3 < 0}, p(V1).\nfold 1 at [1] by n/1 with [] keep [] show [[1,1],[1,1]].\n",
    ),
    // a predicate would be emptied, at once and by another definition of the same atoms
    (
        "map replay P S",
        ONE_FACT,
        "map script 1. define n(X) :- p(X). fold 2 at [1] by n/1 with [] keep [] show [].",
        Status::Refused,
        "refused: step 2: 11 unmarked 2\n",
    ),
    (
        "map fill P S",
        ONE_FACT,
        "map script 1. define n(X) :- p(X). fold 2 at [1] by n/1 with [] keep [] show [].",
        Status::Refused,
        "refused: step 2: 11 unmarked 2\n",
    ),
    (
        "map replay P S",
        ONE_FACT,
        "map script 1. define n(X) :- p(X). define m(X) :- p(X). fold 2 at [1] by m/1 with [] keep [] show [].",
        Status::Refused,
        "refused: step 3: 11 unmarked 2\n",
    ),
    // the definition unfolded first is another clause, which is marked
    (
        "map replay P S",
        "p(a). p(f(X)) :- p(X).",
        "map script 1. define n(X) :- p(X). unfold 3 at 1. fold 5 at [1] by n/1 with [] keep [] show [].",
        Status::Ok,
        "p(a).\np(f(V1)) :- p(V1).\nn(a).\nn(f(V1)) :- n(V1).\n",
    ),
    // other refusals
    (
        "map replay P S",
        ONE_FACT,
        "map script 1. define n(X) :- n(X).",
        Status::Refused,
        "refused: step 1: 8 recursive definition n/1\n",
    ),
    (
        "map replay P S",
        "h(X,Y) :- p(X,Y).",
        "map script 1. define n(X) :- p(X,Y). fold 1 at [1] by n/1 with [] keep [] show [].",
        Status::Refused,
        "refused: step 2: 15 lost variable 2\n",
    ),
    (
        "map fill P S",
        BOUNDED,
        "map script 1. define n(X) :- p(X), {X > 4}. fold 1 at [1] by n/1 with [] keep [1] show find. fold 9 at [1] by n/1 with [] keep [] show [].",
        Status::Refused,
        "refused: step 2: 16 unentailed 1\n",
    ),
    (
        "map replay P S",
        BOUNDED,
        "map script 1. define n(X) :- p(X), {X > 3}. fold 1 at [1] by n/1 with [] keep [] show [[1,1],[1,-1]].",
        Status::Refused,
        "refused: step 2: 17 bad multipliers 2 negative\n",
    ),
    // a fold that is no step, behind a step that is refused
    (
        "map replay P S",
        ONE_FACT,
        "map script 1. define n(X) :- n(X). fold 1 at [1] by n with [] keep [] show [].",
        Status::BadScript,
        "bad script: byte 54: unexpected\n",
    ),
    (
        "map fill P S",
        ONE_FACT,
        "map script 1. define n(X) :- p(X), Y.",
        Status::BadScript,
        "bad script: byte 35: not an atom\n",
    ),
];

fn is_answered(alloc: Global, case: &Case) -> Result<bool, AllocError> {
    let (words, program, script, status, written) = *case;
    let files = files(alloc, Some(program.as_bytes()), Some(script.as_bytes()))?;
    let outcome = call(alloc, words, files, 0, 7, 0)?;
    Ok(is_answer(&outcome, status, written))
}

#[test]
fn definitions_and_folds(rt: HostRuntime) -> Result<(), AllocError> {
    for (at, case) in CASES.iter().enumerate() {
        assert!(rt; is_answered(rt.alloc(), case)?, "case {at}");
    }
    Ok(())
}
