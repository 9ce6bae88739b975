//! Folding: rows, and variables that are in no atom.

use crate::stepping::{Run, ends_so};
use std::test::Fail;

const TWO_ROWS: &str = "h(X,Y) :- {X > 1, Y < 9}, q(X,Y).";

const ROW_OF_HEAD: &str = "define n(X,Y) :- q(X,Y), {Y < 9}.";

const ROW_OF_INTERNAL: &str = "define n(X) :- q(X,Y), {Y < 9}.";

const BOUNDED: &str = "h(X) :- {X > 1, X < 9}, p(X), s. s.";

const ROW_OF_OUTER: &str = "define n(X,Y) :- p(X), {X > 1, Y < X}.";

const EQUATION: &str = "h(X,Y) :- {Y - X - 1 = 0, X > 3}, q(X,Y).";

const EQUATION_OF_HEAD: &str = "define n(X,Y) :- {Y = X + 1}, q(X,Y).";

const TWICE_ONE: &str = "h(X) :- {X < 0}, q(X,X).";

const OVERFLOW_AT_TWO: &str =
    "define n(X,Y) :- q(X,Y), {X < 0, 4611686018427387904*X + 4611686018427387904*Y + 1 =< 0}.";

const OVERFLOW_AT_ONE: &str =
    "define n(X,Y) :- q(X,Y), {4611686018427387904*X + 4611686018427387904*Y + 1 =< 0, Y < 0}.";

/// Variables that are in no atom of the definition.
static WITH: [Run; 14] = [
    (
        "h(X) :- {X > 1, Y < X}, p(X).",
        "define n(X,Y) :- p(X), {Y < X}.",
        "fold 1 at [1] by n/2 with [2] keep [1,2] show [[1,0,1]].",
        Ok("n(V1,V2) :- {-V1 + V2 < 0}, p(V1).\nh(V1) :- {-V1 + 1 < 0, -V1 + V2 < 0}, n(V1,V2).\n"),
    ),
    // two of them, by rising number
    (
        "h(X) :- {Y < X, Z < Y}, p(X).",
        "define n(Z,X,Y) :- p(X), {Y < X, Z < Y}.",
        "fold 1 at [1] by n/3 with [3,2] keep [1,2] show [[1,1,0],[1,0,1]].",
        Ok(
            "n(V1,V2,V3) :- {-V2 + V3 < 0, V1 - V3 < 0}, p(V2).\nh(V1) :- {-V1 + V3 < 0, V2 - V3 < 0}, n(V2,V1,V3).\n",
        ),
    ),
    (
        "h(X) :- {Y < X, Z < Y}, p(X).",
        "define n(Z,X,Y) :- p(X), {Y < X, Z < Y}.",
        "fold 1 at [1] by n/3 with [2,3] keep [1,2] show find.",
        Err("16 unentailed 2"),
    ),
    // to one variable
    (
        "h(X) :- {Y < X}, p(X).",
        "define n(X,Y,Z) :- p(X), {Y < X, Z < X}.",
        "fold 1 at [1] by n/3 with [2,2] keep [] show [[1,1],[1,1],[1,1,0]].",
        Ok(
            "n(V1,V2,V3) :- {-V1 + V2 < 0, -V1 + V3 < 0}, p(V1).\nh(V1) :- {num(V1), num(V2)}, n(V1,V2,V2).\n",
        ),
    ),
    // of wrong length
    (
        BOUNDED,
        ROW_OF_OUTER,
        "fold 1 at [1] by n/2 with [] keep [] show [].",
        Err("14 bad with 0"),
    ),
    (
        BOUNDED,
        ROW_OF_OUTER,
        "fold 1 at [1] by n/2 with [1,1] keep [] show [].",
        Err("14 bad with 0"),
    ),
    (
        BOUNDED,
        ROW_OF_OUTER,
        "fold 1 at [1] by n/2 with [0,9] keep [] show [].",
        Err("14 bad with 0"),
    ),
    // no variable of the clause, and one that is no number
    (
        BOUNDED,
        ROW_OF_OUTER,
        "fold 1 at [1] by n/2 with [0] keep [] show [].",
        Err("14 bad with 1"),
    ),
    (
        BOUNDED,
        ROW_OF_OUTER,
        "fold 1 at [1] by n/2 with [2] keep [] show [].",
        Err("14 bad with 1"),
    ),
    (
        BOUNDED,
        ROW_OF_OUTER,
        "fold 1 at [1] by n/2 with [4294967295] keep [] show [].",
        Err("14 bad with 1"),
    ),
    (
        "h(X,Z) :- {X > 1}, p(X), s(Z). s(a).",
        ROW_OF_OUTER,
        "fold 1 at [1] by n/2 with [2] keep [] show [].",
        Err("14 bad with 1"),
    ),
    (
        "h(X,Z) :- {X > 1}, p(X), s(Z). s(a).",
        "define n(X,Y,Z) :- p(X), {Y < X, Z < X}.",
        "fold 1 at [1] by n/3 with [1,2] keep [] show [].",
        Err("14 bad with 2"),
    ),
    (
        "h(X,Z) :- {X > 1}, p(X), s(Z). s(a).",
        "define n(X,Y,Z) :- p(X), {Y < X, Z < X}.",
        "fold 1 at [1] by n/3 with [2,9] keep [] show [].",
        Err("14 bad with 1"),
    ),
    // what is named is not shown to be so
    (
        BOUNDED,
        ROW_OF_OUTER,
        "fold 1 at [1] by n/2 with [1] keep [1,2] show find.",
        Err("16 unentailed 2"),
    ),
];

/// Rows that are kept, and rows that are dropped.
static ROWS: [Run; 16] = [
    (
        TWO_ROWS,
        ROW_OF_HEAD,
        "fold 1 at [1] by n/2 with [] keep [1] show [[1,0,1],[1,0,1]].",
        Ok("n(V1,V2) :- {V2 - 9 < 0}, q(V1,V2).\nh(V1,V2) :- {-V1 + 1 < 0, num(V2)}, n(V1,V2).\n"),
    ),
    // in the order of the clause
    (
        TWO_ROWS,
        ROW_OF_HEAD,
        "fold 1 at [1] by n/2 with [] keep [2,1] show [[1,0,1]].",
        Ok(
            "n(V1,V2) :- {V2 - 9 < 0}, q(V1,V2).\nh(V1,V2) :- {-V1 + 1 < 0, V2 - 9 < 0}, n(V1,V2).\n",
        ),
    ),
    // every row is dropped
    (
        "h(X) :- {X > 1, X > 0}, p(X).",
        "define n(X) :- p(X), {X > 1}.",
        "fold 1 at [1] by n/1 with [] keep [] show [[1,1,0],[1,1],[1,1]].",
        Ok("n(V1) :- {-V1 + 1 < 0}, p(V1).\nh(V1) :- {num(V1)}, n(V1).\n"),
    ),
    (
        "h(X) :- {X > 1, X > 0}, p(X).",
        "define n(X) :- p(X), {X > 1}.",
        "fold 1 at [1] by n/1 with [] keep [] show find.",
        Ok("n(V1) :- {-V1 + 1 < 0}, p(V1).\nh(V1) :- {num(V1)}, n(V1).\n"),
    ),
    (
        "h(X) :- {X > 1, X < 3}, p(X).",
        "define n(X) :- p(X), {X > 1}.",
        "fold 1 at [1] by n/1 with [] keep [] show find.",
        Err("16 unentailed 3"),
    ),
    // an internal number with rows, by two atoms
    (
        "h(X,Z) :- {Y - X - 1 = 0, Z - Y =< 0}, q(X,Y), q(Y,Z).",
        "define n(X,Z) :- {Y = X + 1, Z =< Y}, q(X,Y), q(Y,Z).",
        "fold 1 at [1,2] by n/2 with [] keep [] show find.",
        Ok(
            "n(V1,V2) :- {V1 - V3 + 1 = 0, V2 - V3 =< 0}, q(V1,V3), q(V3,V2).\nh(V1,V2) :- {num(V1), num(V2)}, n(V1,V2).\n",
        ),
    ),
    // positions of rows
    (
        TWO_ROWS,
        ROW_OF_HEAD,
        "fold 1 at [1] by n/2 with [] keep [3] show [].",
        Err("3 no row 3"),
    ),
    (
        TWO_ROWS,
        ROW_OF_HEAD,
        "fold 1 at [1] by n/2 with [] keep [1,0] show [].",
        Err("3 no row 0"),
    ),
    (
        TWO_ROWS,
        ROW_OF_HEAD,
        "fold 1 at [1] by n/2 with [] keep [2,2] show [].",
        Err("4 repeated position 2"),
    ),
    (
        TWO_ROWS,
        ROW_OF_HEAD,
        "fold 1 at [1] by n/2 with [] keep [1,1,3] show [].",
        Err("3 no row 3"),
    ),
    // a position twice, and a variable that is lost
    (
        TWO_ROWS,
        ROW_OF_INTERNAL,
        "fold 1 at [1] by n/1 with [] keep [1,1] show [].",
        Err("4 repeated position 1"),
    ),
    (
        TWO_ROWS,
        ROW_OF_INTERNAL,
        "fold 1 at [1] by n/1 with [] keep [1] show [].",
        Err("15 lost variable 2"),
    ),
    // the number of certificates
    (
        TWO_ROWS,
        ROW_OF_HEAD,
        "fold 1 at [1] by n/2 with [] keep [1] show [[1,0,1]].",
        Err("17 bad multipliers 0 count"),
    ),
    (
        TWO_ROWS,
        ROW_OF_HEAD,
        "fold 1 at [1] by n/2 with [] keep [1] show [[1,0,1],[1,0,1],[1,0,1]].",
        Err("17 bad multipliers 0 count"),
    ),
    // it comes after a variable that is lost, and before the certificates
    (
        TWO_ROWS,
        ROW_OF_INTERNAL,
        "fold 1 at [1] by n/1 with [] keep [1,2] show [].",
        Err("15 lost variable 2"),
    ),
    (
        TWO_ROWS,
        ROW_OF_HEAD,
        "fold 1 at [1] by n/2 with [] keep [1] show [[1,0,0]].",
        Err("17 bad multipliers 0 count"),
    ),
];

/// Rows that are to be shown, one after another.
static SHOWN: [Run; 30] = [
    // each fault of a certificate, of the definition's row
    (
        TWO_ROWS,
        ROW_OF_HEAD,
        "fold 1 at [1] by n/2 with [] keep [1] show [[1,0,1]/[1,0,1],[1,0,1]].",
        Err("17 bad multipliers 1 form"),
    ),
    (
        TWO_ROWS,
        ROW_OF_HEAD,
        "fold 1 at [1] by n/2 with [] keep [1] show [[1,1],[1,0,1]].",
        Err("17 bad multipliers 1 count"),
    ),
    (
        TWO_ROWS,
        ROW_OF_HEAD,
        "fold 1 at [1] by n/2 with [] keep [1] show [[1,-1,1],[1,0,1]].",
        Err("17 bad multipliers 1 negative"),
    ),
    (
        TWO_ROWS,
        ROW_OF_HEAD,
        "fold 1 at [1] by n/2 with [] keep [1] show [[1,1,0],[1,0,1]].",
        Err("17 bad multipliers 1 not constant"),
    ),
    (
        TWO_ROWS,
        "define n(X,Y) :- q(X,Y), {Y < 8}.",
        "fold 1 at [1] by n/2 with [] keep [1] show [[1,0,1],[1,0,1]].",
        Err("17 bad multipliers 1 wrong sign"),
    ),
    // of the row that is dropped, from the kept one and the definition's
    (
        TWO_ROWS,
        ROW_OF_HEAD,
        "fold 1 at [1] by n/2 with [] keep [1] show [[1,0,1],[1,1]].",
        Err("17 bad multipliers 2 count"),
    ),
    (
        TWO_ROWS,
        ROW_OF_HEAD,
        "fold 1 at [1] by n/2 with [] keep [1] show [[1,0,1],[1,1,0]].",
        Err("17 bad multipliers 2 not constant"),
    ),
    (
        TWO_ROWS,
        ROW_OF_HEAD,
        "fold 1 at [1] by n/2 with [] keep [1] show [[1,0,1],[0,0,1]].",
        Err("17 bad multipliers 2 not constant"),
    ),
    (
        TWO_ROWS,
        "define n(X,Y) :- q(X,Y), {Y < 10}.",
        "fold 1 at [1] by n/2 with [] keep [1] show [[1,0,1],[1,0,1]].",
        Err("17 bad multipliers 2 wrong sign"),
    ),
    (
        TWO_ROWS,
        "define n(X,Y) :- q(X,Y), {Y < 10}.",
        "fold 1 at [1] by n/2 with [] keep [1] show [find,find].",
        Err("16 unentailed 2"),
    ),
    // the first place decides
    (
        TWO_ROWS,
        "define n(X,Y) :- q(X,Y), {Y < 8}.",
        "fold 1 at [1] by n/2 with [] keep [1] show [find,[1]].",
        Err("16 unentailed 1"),
    ),
    (
        TWO_ROWS,
        ROW_OF_HEAD,
        "fold 1 at [1] by n/2 with [] keep [1] show [[1,0],find].",
        Err("17 bad multipliers 1 count"),
    ),
    (
        TWO_ROWS,
        ROW_OF_HEAD,
        "fold 1 at [1] by n/2 with [] keep [] show [find,find,[1,1]].",
        Err("16 unentailed 2"),
    ),
    (
        TWO_ROWS,
        ROW_OF_HEAD,
        "fold 1 at [1] by n/2 with [] keep [1] show [find,[1,0,1]].",
        Ok("n(V1,V2) :- {V2 - 9 < 0}, q(V1,V2).\nh(V1,V2) :- {-V1 + 1 < 0, num(V2)}, n(V1,V2).\n"),
    ),
    // an equation, by its halves
    (
        EQUATION,
        EQUATION_OF_HEAD,
        "fold 1 at [1] by n/2 with [] keep [1,2] show [[1,1,0]/[1,-1,0]].",
        Ok(
            "n(V1,V2) :- {V1 - V2 + 1 = 0}, q(V1,V2).\nh(V1,V2) :- {V1 - V2 + 1 = 0, -V1 + 3 < 0}, n(V1,V2).\n",
        ),
    ),
    (
        EQUATION,
        EQUATION_OF_HEAD,
        "fold 1 at [1] by n/2 with [] keep [1,2] show [[1,1,0]].",
        Err("17 bad multipliers 1 form"),
    ),
    (
        EQUATION,
        EQUATION_OF_HEAD,
        "fold 1 at [1] by n/2 with [] keep [2] show [find,[1,0,1]/[1,0,-1]].",
        Ok(
            "n(V1,V2) :- {V1 - V2 + 1 = 0}, q(V1,V2).\nh(V1,V2) :- {-V1 + 3 < 0, num(V2)}, n(V1,V2).\n",
        ),
    ),
    (
        EQUATION,
        EQUATION_OF_HEAD,
        "fold 1 at [1] by n/2 with [] keep [2] show [find,[1,0,1]/[1,0,1]].",
        Err("17 bad multipliers 2 not constant"),
    ),
    (
        EQUATION,
        EQUATION_OF_HEAD,
        "fold 1 at [1] by n/2 with [] keep [1] show find.",
        Err("16 unentailed 2"),
    ),
    // rows without solution entail all
    (
        "h(X) :- {X < 0, X > 0}, p(X).",
        "define n(X) :- p(X), {X > 7}.",
        "fold 1 at [1] by n/1 with [] keep [1,2] show [[0,1,1]].",
        Ok("n(V1) :- {-V1 + 7 < 0}, p(V1).\nh(V1) :- {V1 < 0, -V1 < 0}, n(V1).\n"),
    ),
    (
        "h(X) :- {X < 0, X > 0}, p(X).",
        "define n(X) :- p(X), {X > 7}.",
        "fold 1 at [1] by n/1 with [] keep [1] show find.",
        Ok("n(V1) :- {-V1 + 7 < 0}, p(V1).\nh(V1) :- {V1 < 0}, n(V1).\n"),
    ),
    (
        "h(X) :- {X < 0, X > 0}, p(X).",
        "define n(X) :- p(X), {X > 7}.",
        "fold 1 at [1] by n/1 with [] keep [2] show find.",
        Err("16 unentailed 2"),
    ),
    // a row whose image becomes true
    (
        "h(X) :- {num(X)}, q(X,X).",
        "define n(X,Y) :- {X =< Y}, q(X,Y).",
        "fold 1 at [1] by n/2 with [] keep [] show [[1]].",
        Ok("n(V1,V2) :- {V1 - V2 =< 0}, q(V1,V2).\nh(V1) :- {num(V1)}, n(V1,V1).\n"),
    ),
    (
        "h(X) :- {num(X)}, q(X,X).",
        "define n(X,Y) :- {X < Y}, q(X,Y).",
        "fold 1 at [1] by n/2 with [] keep [] show find.",
        Err("16 unentailed 1"),
    ),
    // a row whose image is out of range, at its place
    (
        TWICE_ONE,
        OVERFLOW_AT_TWO,
        "fold 1 at [1] by n/2 with [] keep [1] show find.",
        Err("23 overflow 2"),
    ),
    (
        TWICE_ONE,
        OVERFLOW_AT_ONE,
        "fold 1 at [1] by n/2 with [] keep [1] show find.",
        Err("23 overflow 1"),
    ),
    (
        TWICE_ONE,
        OVERFLOW_AT_ONE,
        "fold 1 at [1] by n/2 with [] keep [1] show [[1],[1]].",
        Err("23 overflow 1"),
    ),
    (
        TWICE_ONE,
        OVERFLOW_AT_TWO,
        "fold 1 at [1] by n/2 with [] keep [1] show [[1,0],[1]].",
        Err("17 bad multipliers 1 not constant"),
    ),
    (
        TWICE_ONE,
        OVERFLOW_AT_TWO,
        "fold 1 at [1] by n/2 with [] keep [1] show [[1,1]].",
        Err("17 bad multipliers 0 count"),
    ),
    // the finder's work is out of range
    (
        "h(X,Y,Z) :- {9223372036854775807*X - Y =< 0, 9223372036854775806*X + Z - 1 > 0}, q(X,Y), p(Z).",
        "define n(X,Y) :- q(X,Y), {Y > 0}.",
        "fold 1 at [1] by n/2 with [] keep [1,2] show find.",
        Err("23 overflow 1"),
    ),
];

#[test]
fn folds_rows(rt: HostRuntime) -> Result<(), Fail> {
    for (at, run) in WITH.iter().enumerate() {
        assert!(rt; ends_so(rt.alloc(), run)?, "with {at}");
    }
    for (at, run) in ROWS.iter().enumerate() {
        assert!(rt; ends_so(rt.alloc(), run)?, "rows {at}");
    }
    for (at, run) in SHOWN.iter().enumerate() {
        assert!(rt; ends_so(rt.alloc(), run)?, "shown {at}");
    }
    Ok(())
}
