//! Scripts that are read, and printed again: numbers, rows and certificates come out in the one form that they have.

use script_text::{print_script, read_script};
use std::alloc::Global;
use std::test::Fail;

/// What follows the version line, and the lines that its steps are printed as.
type Case = (&'static str, &'static str);

static CASES: [Case; 49] = [
    ("", ""),
    ("merge 1 at 2,3.", "merge 1 at 2,3.\n"),
    (
        "merge 007 at\n2 , 3 .\r\n\tmerge 4294967295 at 0,1.",
        "merge 7 at 2,3.\nmerge 4294967295 at 0,1.\n",
    ),
    (
        "unfold 12 at 003 . unfold\n0 at 4294967295.\n",
        "unfold 12 at 3.\nunfold 0 at 4294967295.\n",
    ),
    ("unfold%\n1/* at */at/**/2.%", "unfold 1 at 2.\n"),
    // definitions: the variables of one are its own, and are numbered as they are first met
    ("define p.", "define p.\n"),
    ("define 'a b'(Y,X).", "define 'a b'(V1,V2).\n"),
    (
        "define n(X) :- {Y > 3}, q(Z,X,Y).",
        "define n(V1) :- {-V2 + 3 < 0}, q(V3,V1,V2).\n",
    ),
    (
        "define n(X) :- q(X), {num(X)}, true.",
        "define n(V1) :- {num(V1)}, q(V1).\n",
    ),
    (
        "define n(X) :- X = [Y|Z], q(_,Z).",
        "define n(V1) :- V1 = [V2|V3], q(V4,V3).\n",
    ),
    (
        "define\tn(X)%\n:-q(X)/* . */. define m(Y) :- q(Y).",
        "define n(V1) :- q(V1).\ndefine m(V1) :- q(V1).\n",
    ),
    // folds
    (
        "fold 1 at [2] by n/1 with [3] keep [4] show find.",
        "fold 1 at [2] by n/1 with [3] keep [4] show find.\n",
    ),
    (
        "fold 01 at[3 , 2]by n / 02 with[ ]keep[1]show[ ].",
        "fold 1 at [3,2] by n/2 with [] keep [1] show [].\n",
    ),
    (
        "fold 4294967295 at [] by 'n'/4294967295 with [4294967295,0] keep [] show [find].",
        "fold 4294967295 at [] by n/4294967295 with [4294967295,0] keep [] show [find].\n",
    ),
    (
        "fold 1 at [1] by '[]'/0 with [] keep [2,2] show [[1],find,[1,-2]/[-0,3]].",
        "fold 1 at [1] by '[]'/0 with [] keep [2,2] show [[1],find,[1,-2]/[0,3]].\n",
    ),
    (
        "fold 1 at [1] by fold/1 with [2]/* the rows\n*/keep%\n[ 3,4]show find .",
        "fold 1 at [1] by fold/1 with [2] keep [3,4] show find.\n",
    ),
    // what shows a row
    ("delete 3 false show find.", "delete 3 false show find.\n"),
    ("delete 3 false show [1].", "delete 3 false show [1].\n"),
    (
        "delete 3 false show[ 007 , - 5,-0 ] .",
        "delete 3 false show [7,-5,0].\n",
    ),
    (
        "delete 3 false show [72057594037927935,-72057594037927935].",
        "delete 3 false show [72057594037927935,-72057594037927935].\n",
    ),
    (
        "drop 1 row 2 show [1,2] / [3,-4].",
        "drop 1 row 2 show [1,2]/[3,-4].\n",
    ),
    (
        "drop 1 row 2 show [-1]/[0].",
        "drop 1 row 2 show [-1]/[0].\n",
    ),
    (
        "drop 4294967295 row 0 show find.",
        "drop 4294967295 row 0 show find.\n",
    ),
    ("project 1 var 2.", "project 1 var 2.\n"),
    (
        "project 4294967295 var 4294967294.",
        "project 4294967295 var 4294967294.\n",
    ),
    (
        "equate 1 var 2 to 3 show find.",
        "equate 1 var 2 to 3 show find.\n",
    ),
    (
        "equate 1 var 3 to 2 show [1]/[2].",
        "equate 1 var 3 to 2 show [1]/[2].\n",
    ),
    // the relations of rows
    (
        "add 1 row V1 =< 3 show find.",
        "add 1 row V1 - 3 =< 0 show find.\n",
    ),
    (
        "add 1 row V1 < 3 show find.",
        "add 1 row V1 - 3 < 0 show find.\n",
    ),
    (
        "add 1 row V1 >= 3 show find.",
        "add 1 row -V1 + 3 =< 0 show find.\n",
    ),
    (
        "add 1 row V1 > 3 show find.",
        "add 1 row -V1 + 3 < 0 show find.\n",
    ),
    (
        "add 1 row V1 = V2 show find.",
        "add 1 row V1 - V2 = 0 show find.\n",
    ),
    (
        "add 1 row V2 =:= V1 show find.",
        "add 1 row V1 - V2 = 0 show find.\n",
    ),
    // their normal form
    (
        "add 1 row 2*V2 >= 4*V1 + 6 show [1].",
        "add 1 row 2*V1 - V2 + 3 =< 0 show [1].\n",
    ),
    (
        "add 1 row -V1/3 < 1/2 show find.",
        "add 1 row -2*V1 - 3 < 0 show find.\n",
    ),
    (
        "add 1 row (V1 + V2)*2 =< 3*(V1) show find.",
        "add 1 row -V1 + 2*V2 =< 0 show find.\n",
    ),
    (
        "add 1 row V2 + V1 = V2 show find.",
        "add 1 row V1 = 0 show find.\n",
    ),
    (
        "add 1 row V1 = V1 show find.",
        "add 1 row 0 = 0 show find.\n",
    ),
    (
        "add 1 row 1 = 2 show find.",
        "add 1 row -1 = 0 show find.\n",
    ),
    (
        "add 1 row 2 =< 1 show find.",
        "add 1 row 1 =< 0 show find.\n",
    ),
    // variables by their own numbers
    (
        "add 1 row V4294967295 =< V10 + V9 show find.",
        "add 1 row -V9 - V10 + V4294967295 =< 0 show find.\n",
    ),
    (
        "add 1 row V3 = V7 + V3 show [0,1].",
        "add 1 row V7 = 0 show [0,1].\n",
    ),
    // white and comments within a row
    (
        "add 1 row%\nV1/* - 3 */=<\n3 show find.",
        "add 1 row V1 - 3 =< 0 show find.\n",
    ),
    // steps keep their order
    (
        "project 2 var 1. merge 1 at 1,2. unfold 1 at 1.",
        "project 2 var 1.\nmerge 1 at 1,2.\nunfold 1 at 1.\n",
    ),
    (
        "drop 2 row 1 show find. add 1 row V1 = 1 show find. drop 3 row 1 show [1].",
        "drop 2 row 1 show find.\nadd 1 row V1 - 1 = 0 show find.\ndrop 3 row 1 show [1].\n",
    ),
    // the variables of a row are its own
    (
        "add 1 row V2 = 1 show find. add 1 row V1 = 1 show find.",
        "add 1 row V2 - 1 = 0 show find.\nadd 1 row V1 - 1 = 0 show find.\n",
    ),
    ("% a script may end in a comment", ""),
    ("/* and\nin such a one */", ""),
    (" \t\r\n", ""),
];

/// Whether a script of this version line and these steps is printed so.
fn prints(alloc: Global, version: &str, case: &Case) -> Result<bool, Fail> {
    let mut script = String::from_str(alloc, version)?;
    script.push_str(case.0)?;
    let mut wanted = String::from_str(alloc, "map script 1.\n")?;
    wanted.push_str(case.1)?;
    if script.len() > 1_000_000 {
        return Ok(false);
    }
    let steps = read_script(alloc, script.as_bytes())?;
    let mut text = String::new(alloc);
    print_script(steps.as_slice(), &mut text)?;
    Ok(text.as_str() == wanted.as_str())
}

#[test]
fn reads_scripts(rt: HostRuntime) -> Result<(), Fail> {
    for case in &CASES {
        assert!(rt; prints(rt.alloc(), "map script 1. ", case)?, "{}", case.0);
    }
    Ok(())
}

#[test]
fn reads_what_it_printed(rt: HostRuntime) -> Result<(), Fail> {
    for case in &CASES {
        let printed = (case.1, case.1);
        assert!(rt;
            prints(rt.alloc(), "map script 1.\n", &printed)?,
            "{}",
            case.1
        );
    }
    Ok(())
}

static VERSIONS: [&str; 5] = [
    "map script 1.\n",
    "map script 1 . ",
    "\tmap\r\nscript 0001.%\n",
    "% first\nmap/* the */script/* version */1.\n",
    "map script 1.%\n",
];

#[test]
fn reads_the_version(rt: HostRuntime) -> Result<(), Fail> {
    let case = ("merge 1 at 1,2.", "merge 1 at 1,2.\n");
    for version in &VERSIONS {
        assert!(rt; prints(rt.alloc(), version, &case)?, "{version}");
    }
    Ok(())
}
