//! Folding: the clause, the definition, atoms, sorts and variables that are lost.

use crate::stepping::{Case, Run, comes_to, ends_so};
use std::test::Fail;

// ---- atoms

const PROGRAM: &str = "h(X) :- p(X,Y), q(Y), r(X). p(a,b). q(b). r(a).";

/// Its clause has the id 5.
const DEFINITION: &str = "define n(X) :- p(X,Y), q(Y).";

const FOLDED: &str = "p(a,b).\nq(b).\nr(a).\nn(V1) :- p(V1,V2), q(V2).\nh(V1) :- n(V1), r(V1).\n";

static CASES: [Case; 40] = [
    (
        "fold 1 at [1,2] by n/1 with [] keep [] show [].",
        Ok(FOLDED),
    ),
    (
        "fold 1 at [1,2] by n/1 with [] keep [] show find.",
        Ok(FOLDED),
    ),
    // the clause, its mark and the definition
    (
        "fold 0 at [1,2] by n/1 with [] keep [] show [].",
        Err("1 no clause 0"),
    ),
    (
        "fold 6 at [1,2] by n/1 with [] keep [] show [].",
        Err("1 no clause 6"),
    ),
    (
        "fold 9 at [9] by z/1 with [1] keep [9] show [[1]].",
        Err("1 no clause 9"),
    ),
    (
        "fold 5 at [1,2] by n/1 with [] keep [] show [].",
        Err("11 unmarked 5"),
    ),
    (
        "fold 5 at [1,2] by z/1 with [] keep [] show [].",
        Err("11 unmarked 5"),
    ),
    (
        "fold 1 at [1,2] by z/1 with [] keep [] show [].",
        Err("12 no definition z/1"),
    ),
    (
        "fold 1 at [1,2] by n/2 with [] keep [] show [].",
        Err("12 no definition n/2"),
    ),
    (
        "fold 1 at [1,2] by h/1 with [] keep [] show [].",
        Err("12 no definition h/1"),
    ),
    (
        "fold 1 at [1,2] by 'N'/1 with [] keep [] show [].",
        Err("12 no definition 'N'/1"),
    ),
    (
        "fold 1 at [0,2] by z/1 with [] keep [] show [].",
        Err("12 no definition z/1"),
    ),
    // the positions
    (
        "fold 1 at [0,2] by n/1 with [] keep [] show [].",
        Err("2 no atom 0"),
    ),
    (
        "fold 1 at [1,4] by n/1 with [] keep [] show [].",
        Err("2 no atom 4"),
    ),
    (
        "fold 1 at [5,4] by n/1 with [] keep [] show [].",
        Err("2 no atom 5"),
    ),
    (
        "fold 1 at [1,1,4] by n/1 with [] keep [] show [].",
        Err("2 no atom 4"),
    ),
    (
        "fold 1 at [1,1] by n/1 with [] keep [] show [].",
        Err("4 repeated position 1"),
    ),
    (
        "fold 1 at [1,2,3,2,1] by n/1 with [] keep [] show [].",
        Err("4 repeated position 2"),
    ),
    // the atoms
    (
        "fold 1 at [] by n/1 with [] keep [] show [].",
        Err("13 no match"),
    ),
    (
        "fold 1 at [1] by n/1 with [] keep [] show [].",
        Err("13 no match"),
    ),
    (
        "fold 1 at [1,2,3] by n/1 with [] keep [] show [].",
        Err("13 no match"),
    ),
    (
        "fold 1 at [2,1] by n/1 with [] keep [] show [].",
        Err("13 no match"),
    ),
    (
        "fold 1 at [1,3] by n/1 with [] keep [] show [].",
        Err("13 no match"),
    ),
    (
        "fold 2 at [] by n/1 with [] keep [] show [].",
        Err("13 no match"),
    ),
    (
        "fold 2 at [1] by n/1 with [] keep [] show [].",
        Err("2 no atom 1"),
    ),
    (
        "fold 1 at [1] by n/1 with [1] keep [] show [].",
        Err("13 no match"),
    ),
    // the images that are given
    (
        "fold 1 at [1,2] by n/1 with [1] keep [] show [].",
        Err("14 bad with 0"),
    ),
    (
        "fold 1 at [1,2] by n/1 with [1,2] keep [] show [].",
        Err("14 bad with 0"),
    ),
    (
        "fold 1 at [1,2] by n/1 with [1] keep [1] show [].",
        Err("14 bad with 0"),
    ),
    // the rows
    (
        "fold 1 at [1,2] by n/1 with [] keep [1] show [].",
        Err("3 no row 1"),
    ),
    (
        "fold 1 at [1,2] by n/1 with [] keep [0] show [].",
        Err("3 no row 0"),
    ),
    (
        "fold 1 at [1,2] by n/1 with [] keep [1,1] show [].",
        Err("3 no row 1"),
    ),
    (
        "fold 1 at [1,2] by n/1 with [] keep [2,1] show [[1]].",
        Err("3 no row 2"),
    ),
    // the list of certificates
    (
        "fold 1 at [1,2] by n/1 with [] keep [] show [[1]].",
        Err("17 bad multipliers 0 count"),
    ),
    (
        "fold 1 at [1,2] by n/1 with [] keep [] show [find].",
        Err("17 bad multipliers 0 count"),
    ),
    (
        "fold 1 at [1,2] by n/1 with [] keep [] show [[1],[1]/[1]].",
        Err("17 bad multipliers 0 count"),
    ),
    // the greatest numbers
    (
        "fold 4294967295 at [1,2] by n/1 with [] keep [] show [].",
        Err("1 no clause 4294967295"),
    ),
    (
        "fold 1 at [1,4294967295] by n/1 with [] keep [] show [].",
        Err("2 no atom 4294967295"),
    ),
    (
        "fold 1 at [1,2] by n/4294967295 with [] keep [] show [].",
        Err("12 no definition n/4294967295"),
    ),
    (
        "fold 1 at [1,2] by n/1 with [] keep [4294967295] show [].",
        Err("3 no row 4294967295"),
    ),
];

#[test]
fn folds(rt: HostRuntime) -> Result<(), Fail> {
    for (at, case) in CASES.iter().enumerate() {
        assert!(rt;
            comes_to(rt.alloc(), PROGRAM, DEFINITION, case.0, case.1)?,
            "case {at}"
        );
    }
    Ok(())
}

/// The places of atoms, and how they match.
static PLACES: [Run; 15] = [
    // the new atom stands at the least position, the positions in the order of the definition's atoms
    (
        "h(X) :- r(X), p(X,Y), s, q(Y). s.",
        "define n(X) :- q(Y), p(X,Y).",
        "fold 1 at [4,2] by n/1 with [] keep [] show [].",
        Ok("s.\nn(V1) :- q(V2), p(V1,V2).\nh(V1) :- r(V1), n(V1), s.\n"),
    ),
    (
        "h(X) :- r(X), p(X,Y), s, q(Y). s.",
        "define n(X) :- q(Y), p(X,Y).",
        "fold 1 at [2,4] by n/1 with [] keep [] show [].",
        Err("13 no match"),
    ),
    // two equal atoms, and two of one predicate
    (
        "h(X) :- p(X), p(X).",
        "define n(X) :- p(X), p(X).",
        "fold 1 at [2,1] by n/1 with [] keep [] show [].",
        Ok("n(V1) :- p(V1), p(V1).\nh(V1) :- n(V1).\n"),
    ),
    (
        "h(X,Y) :- p(X), p(Y).",
        "define n(X,Y) :- p(Y), p(X).",
        "fold 1 at [1,2] by n/2 with [] keep [] show [].",
        Ok("n(V1,V2) :- p(V2), p(V1).\nh(V1,V2) :- n(V2,V1).\n"),
    ),
    // a variable that stands twice in the definition
    (
        "h(X,Y) :- q(X,Y).",
        "define n(X) :- q(X,X).",
        "fold 1 at [1] by n/1 with [] keep [] show [].",
        Err("13 no match"),
    ),
    (
        "h(X) :- q(f(X),f(X)).",
        "define n(X) :- q(X,X).",
        "fold 1 at [1] by n/1 with [] keep [] show [].",
        Ok("n(V1) :- q(V1,V1).\nh(V1) :- n(f(V1)).\n"),
    ),
    (
        "h(X) :- q(X,X).",
        "define n(X,Y) :- q(X,Y).",
        "fold 1 at [1] by n/2 with [] keep [] show [].",
        Ok("n(V1,V2) :- q(V1,V2).\nh(V1) :- n(V1,V1).\n"),
    ),
    // other names, other numbers of arguments
    (
        "h(X) :- p(X). r(X,Y) :- p(X), p(Y).",
        "define n(X,Y) :- r(X,Y).",
        "fold 1 at [1] by n/2 with [] keep [] show [].",
        Err("13 no match"),
    ),
    (
        "h(X) :- p(f(X)). r(X) :- p(g(X)).",
        "define n(X) :- p(g(X)).",
        "fold 1 at [1] by n/1 with [] keep [] show [].",
        Err("13 no match"),
    ),
    (
        "h(X) :- p([X]). r(X).",
        "define n(X) :- p([X|Y]).",
        "fold 1 at [1] by n/1 with [] keep [] show [].",
        Err("15 lost variable 2"),
    ),
    // a definition without arguments, and one without variables
    (
        "h :- p(X), s. s.",
        "define n :- p(X).",
        "fold 1 at [1] by n/0 with [] keep [] show [].",
        Ok("s.\nn :- p(V1).\nh :- n, s.\n"),
    ),
    (
        "h(X) :- p(a), p(X).",
        "define n :- p(a).",
        "fold 1 at [1] by n/0 with [] keep [] show [].",
        Ok("n :- p(a).\nh(V1) :- n, p(V1).\n"),
    ),
    (
        "h(X) :- p(a), p(X).",
        "define n :- p(a).",
        "fold 1 at [2] by n/0 with [] keep [] show [].",
        Err("13 no match"),
    ),
    // a definition by its quoted name
    (
        "h(X) :- p(X).",
        "define 'N'(X) :- p(X).",
        "fold 1 at [1] by 'N'/1 with [] keep [] show [].",
        Ok("'N'(V1) :- p(V1).\nh(V1) :- 'N'(V1).\n"),
    ),
    // variables of the clause are numbered anew
    (
        "h :- p(X), q(Y,Z), p(Z).",
        "define n(X) :- q(X,Y), p(Y).",
        "fold 1 at [2,3] by n/1 with [] keep [] show [].",
        Ok("n(V1) :- q(V1,V2), p(V2).\nh :- p(V1), n(V2).\n"),
    ),
];

/// Numbers and other values.
static SORTS: [Run; 7] = [
    // a Num variable of the definition becomes a Num variable alone
    (
        "h(X) :- {num(X)}, p(X).",
        "define n(X) :- {num(X)}, p(X).",
        "fold 1 at [1] by n/1 with [] keep [] show [].",
        Ok("n(V1) :- {num(V1)}, p(V1).\nh(V1) :- {num(V1)}, n(V1).\n"),
    ),
    (
        "h(X) :- p(X).",
        "define n(X) :- {num(X)}, p(X).",
        "fold 1 at [1] by n/1 with [] keep [] show [].",
        Err("13 no match"),
    ),
    (
        "h :- p(a).",
        "define n(X) :- {num(X)}, p(X).",
        "fold 1 at [1] by n/1 with [] keep [] show [].",
        Err("13 no match"),
    ),
    // an Any variable any term
    (
        "h(X) :- {num(X)}, p(X).",
        "define n(X) :- p(X).",
        "fold 1 at [1] by n/1 with [] keep [] show [].",
        Ok("n(V1) :- p(V1).\nh(V1) :- {num(V1)}, n(V1).\n"),
    ),
    (
        "h(X) :- p(5), p(X).",
        "define n(X) :- p(X).",
        "fold 1 at [1] by n/1 with [] keep [1] show [].",
        Ok("n(V1) :- p(V1).\nh(V1) :- {V2 - 5 = 0}, n(V2), p(V1).\n"),
    ),
    // a number in the definition is a variable with a row
    (
        "h :- p(5).",
        "define n :- p(5).",
        "fold 1 at [1] by n/0 with [] keep [] show find.",
        Ok("n :- {V1 - 5 = 0}, p(V1).\nh :- n.\n"),
    ),
    (
        "h :- p(6).",
        "define n :- p(5).",
        "fold 1 at [1] by n/0 with [] keep [] show find.",
        Err("16 unentailed 1"),
    ),
];

/// Variables of a definition that are not in its head.
static LOST: [Run; 18] = [
    // the image is no variable
    (
        "h(X) :- q(X,a).",
        "define n(X) :- q(X,Y).",
        "fold 1 at [1] by n/1 with [] keep [] show [].",
        Err("15 lost variable 2"),
    ),
    (
        "h(X) :- q(X,f(Y)).",
        "define n(X) :- q(X,Y).",
        "fold 1 at [1] by n/1 with [] keep [] show [].",
        Err("15 lost variable 2"),
    ),
    // of another sort
    (
        "h(X) :- {num(Y)}, q(X,Y).",
        "define n(X) :- q(X,Y).",
        "fold 1 at [1] by n/1 with [] keep [] show [].",
        Err("15 lost variable 2"),
    ),
    (
        "h(X) :- {num(Y)}, q(X,Y).",
        "define n(X) :- {num(Y)}, q(X,Y).",
        "fold 1 at [1] by n/1 with [] keep [] show [].",
        Ok("n(V1) :- {num(V2)}, q(V1,V2).\nh(V1) :- n(V1).\n"),
    ),
    // the image of one before it
    (
        "h :- q(X,X).",
        "define n :- q(X,Y).",
        "fold 1 at [1] by n/0 with [] keep [] show [].",
        Err("15 lost variable 2"),
    ),
    (
        "h :- q(X,Y).",
        "define n :- q(X,Y).",
        "fold 1 at [1] by n/0 with [] keep [] show [].",
        Ok("n :- q(V1,V2).\nh :- n.\n"),
    ),
    // in the head
    (
        "h(X,Y) :- q(X,Y).",
        "define n(X) :- q(X,Y).",
        "fold 1 at [1] by n/1 with [] keep [] show [].",
        Err("15 lost variable 2"),
    ),
    (
        "h(X,f(Y)) :- q(X,Y).",
        "define n(X) :- q(X,Y).",
        "fold 1 at [1] by n/1 with [] keep [] show [].",
        Err("15 lost variable 2"),
    ),
    // in an atom that stays
    (
        "h(X) :- q(X,Y), p(Y).",
        "define n(X) :- q(X,Y).",
        "fold 1 at [1] by n/1 with [] keep [] show [].",
        Err("15 lost variable 2"),
    ),
    (
        "h(X) :- q(X,Y), p(f(Y)).",
        "define n(X) :- q(X,Y).",
        "fold 1 at [1] by n/1 with [] keep [] show [].",
        Err("15 lost variable 2"),
    ),
    (
        "h(X) :- q(X,Y), p(Y).",
        "define n(X) :- q(X,Y), p(Y).",
        "fold 1 at [1,2] by n/1 with [] keep [] show [].",
        Ok("n(V1) :- q(V1,V2), p(V2).\nh(V1) :- n(V1).\n"),
    ),
    // in a row that is kept
    (
        "h(X) :- Y > 3, q(X,Y).",
        "define n(X) :- {Y > 3}, q(X,Y).",
        "fold 1 at [1] by n/1 with [] keep [1] show [[1,1]].",
        Err("15 lost variable 2"),
    ),
    (
        "h(X) :- Y > 3, q(X,Y).",
        "define n(X) :- {Y > 3}, q(X,Y).",
        "fold 1 at [1] by n/1 with [] keep [] show [[1,1],[1,1]].",
        Ok("n(V1) :- {-V2 + 3 < 0}, q(V1,V2).\nh(V1) :- n(V1).\n"),
    ),
    // in the image of a variable of the definition's head
    (
        "h :- q(X,X).",
        "define n(X) :- q(X,Y).",
        "fold 1 at [1] by n/1 with [] keep [] show [].",
        Err("15 lost variable 2"),
    ),
    (
        "h :- q(f(X),X).",
        "define n(X) :- q(X,Y).",
        "fold 1 at [1] by n/1 with [] keep [] show [].",
        Err("15 lost variable 2"),
    ),
    // the least that is lost
    (
        "h(X) :- q(X,a), p(b).",
        "define n(X) :- p(Z), q(X,Y).",
        "fold 1 at [2,1] by n/1 with [] keep [] show [].",
        Err("15 lost variable 2"),
    ),
    (
        "h(X) :- q(X,Z), p(b).",
        "define n(X) :- p(Z), q(X,Y).",
        "fold 1 at [2,1] by n/1 with [] keep [] show [].",
        Err("15 lost variable 2"),
    ),
    (
        "h(X,Z) :- q(X,Z), p(Y).",
        "define n(X) :- p(Z), q(X,Y).",
        "fold 1 at [2,1] by n/1 with [] keep [] show [].",
        Err("15 lost variable 3"),
    ),
];

#[test]
fn folds_atoms(rt: HostRuntime) -> Result<(), Fail> {
    for (at, run) in PLACES.iter().enumerate() {
        assert!(rt; ends_so(rt.alloc(), run)?, "place {at}");
    }
    for (at, run) in SORTS.iter().enumerate() {
        assert!(rt; ends_so(rt.alloc(), run)?, "sort {at}");
    }
    for (at, run) in LOST.iter().enumerate() {
        assert!(rt; ends_so(rt.alloc(), run)?, "lost {at}");
    }
    Ok(())
}
