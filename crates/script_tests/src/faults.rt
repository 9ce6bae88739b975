//! The first faults of scripts, beside texts that are nearly the same and have none or another.

use map_model::Step;
use script_text::read_script;
use sqlite_items::Items;
use std::alloc::Global;
use text_fault::{TextError, TextFault};
use token_model::Kind;

/// A text, the place of its first fault, and its kind.
type Case = (&'static [u8], u32, Kind);

/// Texts whose version line is none.
static VERSIONS: [Case; 25] = [
    (b"", 0, Kind::UnexpectedEnd),
    (b" \n", 2, Kind::UnexpectedEnd),
    (b"map ", 4, Kind::UnexpectedEnd),
    (b"map script", 10, Kind::UnexpectedEnd),
    (b"map script 1", 12, Kind::UnexpectedEnd),
    (b" Map script 1.", 1, Kind::NoVersion),
    (b"'map' script 1.", 0, Kind::NoVersion),
    (b"maps script 1.", 0, Kind::NoVersion),
    (b"script map 1.", 0, Kind::NoVersion),
    (b"merge 1 at 1,2.", 0, Kind::NoVersion),
    (b"map 1.", 4, Kind::NoVersion),
    (b"map =", 4, Kind::NoVersion),
    (b"map scripts 1.", 4, Kind::NoVersion),
    (b"map 'script' 1.", 4, Kind::NoVersion),
    // a token's own fault comes before
    (b"$", 0, Kind::BadToken),
    (b"map !", 4, Kind::Unsupported),
    (b"map script one.", 11, Kind::Unexpected),
    (b"map script -1.", 11, Kind::Unexpected),
    (b"map script 0.", 11, Kind::Version),
    (b"map script 2.", 11, Kind::Version),
    (b"map script 4294967297.", 11, Kind::Version),
    (b"map script 9223372036854775808.", 11, Kind::NumberTooLarge),
    (b"map script 01x.", 11, Kind::BadToken),
    (b"map script 1.5", 12, Kind::Unsupported),
    (b"map script 1,", 12, Kind::Unexpected),
];

/// Scripts with a step that is none.
static STEPS: [Case; 35] = [
    (b"map script 1.merge 1 at 1,2.", 12, Kind::BadToken),
    (b"map script 1. 7", 14, Kind::Unexpected),
    (b"map script 1. .", 14, Kind::Unexpected),
    (b"map script 1. at 1", 14, Kind::Unexpected),
    (b"map script 1. unfolds 1 at 1.", 14, Kind::Unexpected),
    (b"map script 1. 'unfold' 1 at 1.", 14, Kind::Unexpected),
    (b"map script 1. Unfold 1 at 1.", 14, Kind::Unexpected),
    (b"map script 1. map script 1.", 14, Kind::Unexpected),
    (b"map script 1. show find.", 14, Kind::Unexpected),
    (b"map script 1. merge x", 20, Kind::Unexpected),
    (b"map script 1. merge -1 at 1,2.", 20, Kind::Unexpected),
    (b"map script 1. merge 4294967296 at", 20, Kind::BadNumber),
    (
        b"map script 1. merge 4294967295 at",
        33,
        Kind::UnexpectedEnd,
    ),
    (
        b"map script 1. merge 9223372036854775808 at",
        20,
        Kind::NumberTooLarge,
    ),
    (b"map script 1. merge 1 1,2.", 22, Kind::Unexpected),
    (b"map script 1. merge 1 'at' 1,2.", 22, Kind::Unexpected),
    (b"map script 1. merge 1 at 1 2.", 27, Kind::Unexpected),
    (b"map script 1. merge 1 at 1.", 26, Kind::Unexpected),
    (b"map script 1. merge 1 at 1,V.", 27, Kind::Unexpected),
    (b"map script 1. merge 1 at 1,2 3.", 29, Kind::Unexpected),
    (b"map script 1. merge 1 at 1,2", 28, Kind::UnexpectedEnd),
    (b"map script 1. merge 1 at 1,2. $", 30, Kind::BadToken),
    (b"map script 1. merge 1 at 1,2. /*", 30, Kind::BadToken),
    (
        b"map script 1. merge 1 at 4294967296,2.",
        25,
        Kind::BadNumber,
    ),
    (
        b"map script 1. merge 1 at 1,4294967296.",
        27,
        Kind::BadNumber,
    ),
    (
        b"map script 1. unfold 1 at 4294967296.",
        26,
        Kind::BadNumber,
    ),
    (b"map script 1. unfold at 1.", 21, Kind::Unexpected),
    (b"map script 1. unfold 1 at 1,2.", 27, Kind::Unexpected),
    (b"map script 1. unfold 1 at 1", 27, Kind::UnexpectedEnd),
    (b"map script 1. unfold 1 merge", 23, Kind::Unexpected),
    (b"map script 1. project 1 2.", 24, Kind::Unexpected),
    (b"map script 1. project 1 var V2.", 28, Kind::Unexpected),
    (
        b"map script 1. project 1 var 4294967296.",
        28,
        Kind::BadNumber,
    ),
    (b"map script 1. equate 1 var 2 at 3", 29, Kind::Unexpected),
    (b"map script 1. equate 1 var 2 to 3.", 33, Kind::Unexpected),
];

/// Scripts in which nothing shows a row.
static SHOWN: [Case; 25] = [
    (b"map script 1. delete 3 show find.", 23, Kind::Unexpected),
    (b"map script 1. delete 3 false.", 28, Kind::Unexpected),
    (b"map script 1. delete 3 false show.", 33, Kind::Unexpected),
    (b"map script 1. delete 3 false find.", 29, Kind::Unexpected),
    (
        b"map script 1. delete 3 false show finds.",
        34,
        Kind::Unexpected,
    ),
    (
        b"map script 1. delete 3 false show 'find'.",
        34,
        Kind::Unexpected,
    ),
    (
        b"map script 1. delete 3 false show find",
        38,
        Kind::UnexpectedEnd,
    ),
    (
        b"map script 1. drop 1 row V1 show find.",
        25,
        Kind::Unexpected,
    ),
    (
        b"map script 1. drop 1 row 4294967296 show find.",
        25,
        Kind::BadNumber,
    ),
    (b"map script 1. drop 1 row 1 show 1.", 32, Kind::Unexpected),
    (b"map script 1. drop 1 row 1 show [].", 33, Kind::Unexpected),
    (
        b"map script 1. drop 1 row 1 show [1,].",
        35,
        Kind::Unexpected,
    ),
    (
        b"map script 1. drop 1 row 1 show [1 2].",
        35,
        Kind::Unexpected,
    ),
    (
        b"map script 1. drop 1 row 1 show [1|2].",
        34,
        Kind::Unexpected,
    ),
    (
        b"map script 1. drop 1 row 1 show [--1].",
        34,
        Kind::Unexpected,
    ),
    (
        b"map script 1. drop 1 row 1 show [+1].",
        33,
        Kind::Unexpected,
    ),
    (
        b"map script 1. drop 1 row 1 show [V1].",
        33,
        Kind::Unexpected,
    ),
    (
        b"map script 1. drop 1 row 1 show [1,2",
        36,
        Kind::UnexpectedEnd,
    ),
    (
        b"map script 1. drop 1 row 1 show [1]/.",
        36,
        Kind::Unexpected,
    ),
    (
        b"map script 1. drop 1 row 1 show [1][2].",
        35,
        Kind::Unexpected,
    ),
    (
        b"map script 1. drop 1 row 1 show [1]/[2]/[3].",
        39,
        Kind::Unexpected,
    ),
    (
        b"map script 1. drop 1 row 1 show [72057594037927936].",
        33,
        Kind::BadNumber,
    ),
    (
        b"map script 1. drop 1 row 1 show [-72057594037927936].",
        34,
        Kind::BadNumber,
    ),
    (
        b"map script 1. drop 1 row 1 show [1]/[0,72057594037927936].",
        39,
        Kind::BadNumber,
    ),
    (
        b"map script 1. drop 1 row 1 show [9223372036854775808].",
        33,
        Kind::NumberTooLarge,
    ),
];

/// Scripts that add a row that is none. Tokens and grammar come first, up to and with `show`; then the variables; then
/// the value; then what follows.
static ROWS: [Case; 29] = [
    (b"map script 1. add 1 row show find.", 29, Kind::Unexpected),
    (
        b"map script 1. add 1 row V1 show find.",
        27,
        Kind::Unexpected,
    ),
    (
        b"map script 1. add 1 V1 = 1 show find.",
        20,
        Kind::Unexpected,
    ),
    (b"map script 1. add 1 row V1 = 1.", 30, Kind::Unexpected),
    (
        b"map script 1. add 1 row V1 = 1 < 2 show find.",
        31,
        Kind::Unexpected,
    ),
    (
        b"map script 1. add 1 row {V1 = 1} show find.",
        24,
        Kind::Unexpected,
    ),
    (
        b"map script 1. add 1 row X = 1 shows find.",
        30,
        Kind::Unexpected,
    ),
    (
        b"map script 1. add 1 row X = 1 'show' find.",
        30,
        Kind::Unexpected,
    ),
    (
        b"map script 1. add 1 row X = show find.",
        33,
        Kind::Unexpected,
    ),
    (
        b"map script 1. add 1 row X = $ show find.",
        28,
        Kind::BadToken,
    ),
    (b"map script 1. add 1 row X = 1", 29, Kind::UnexpectedEnd),
    (
        b"map script 1. add 1 row X = 1 show find.",
        24,
        Kind::BadVariable,
    ),
    (
        b"map script 1. add 1 row V0 = 1 show find.",
        24,
        Kind::BadVariable,
    ),
    (
        b"map script 1. add 1 row V01 = 1 show find.",
        24,
        Kind::BadVariable,
    ),
    (
        b"map script 1. add 1 row V = 1 show find.",
        24,
        Kind::BadVariable,
    ),
    (
        b"map script 1. add 1 row V1x = 1 show find.",
        24,
        Kind::BadVariable,
    ),
    (
        b"map script 1. add 1 row X1 = 1 show find.",
        24,
        Kind::BadVariable,
    ),
    (
        b"map script 1. add 1 row _ = 1 show find.",
        24,
        Kind::BadVariable,
    ),
    (
        b"map script 1. add 1 row V4294967296 = 1 show find.",
        24,
        Kind::BadVariable,
    ),
    (
        b"map script 1. add 1 row V1 + Y < X show find.",
        29,
        Kind::BadVariable,
    ),
    (
        b"map script 1. add 1 row V1*V1 = f(X) show nope.",
        34,
        Kind::BadVariable,
    ),
    (
        b"map script 1. add 1 row V1*V1 = 1 show find.",
        26,
        Kind::NotLinear,
    ),
    (
        b"map script 1. add 1 row p = 1 show nope.",
        24,
        Kind::NotLinear,
    ),
    (
        b"map script 1. add 1 row 1/0 = V1 show find.",
        25,
        Kind::ZeroDivisor,
    ),
    (
        b"map script 1. add 1 row 9223372036854775807*2 = V1 show find.",
        43,
        Kind::NumberTooLarge,
    ),
    (
        b"map script 1. add 1 row V1 = 1 show nope.",
        36,
        Kind::Unexpected,
    ),
    (
        b"map script 1. add 1 row V1 = 1 show.",
        35,
        Kind::Unexpected,
    ),
    (
        b"map script 1. add 1 row V1 = 1 show show find.",
        36,
        Kind::Unexpected,
    ),
    (
        b"map script 1. add 4294967296 row X = $",
        18,
        Kind::BadNumber,
    ),
];

/// Texts that are not in UTF-8, which is looked at before all else.
static BYTES: [Case; 4] = [
    (b"\xff", 0, Kind::NotUtf8),
    (b"map script 1. \xff", 14, Kind::NotUtf8),
    (b"map 2 \xc3", 6, Kind::NotUtf8),
    (b"map script 1. merge \xc3\xa4", 20, Kind::BadToken),
];

fn first_fault(found: Result<Items<Step>, TextError>) -> Option<TextFault> {
    match found {
        Err(TextError::Fault(fault)) => Some(fault),
        _ => None,
    }
}

fn fault_in(alloc: Global, text: &[u8]) -> Option<TextFault> {
    if text.len() > 1_000_000 {
        return None;
    }
    first_fault(read_script(alloc, text))
}

/// The first case, if any, whose fault is another one.
fn first_other(alloc: Global, cases: &[Case]) -> Option<usize> {
    cases.iter().position(|(text, at, kind)| {
        let wanted = TextFault {
            at: *at,
            kind: *kind,
        };
        fault_in(alloc, text) != Some(wanted)
    })
}

#[test]
fn finds_the_first_fault(rt: HostRuntime) {
    assert_eq!(rt; first_other(rt.alloc(), &VERSIONS), None);
    assert_eq!(rt; first_other(rt.alloc(), &STEPS), None);
    assert_eq!(rt; first_other(rt.alloc(), &SHOWN), None);
    assert_eq!(rt; first_other(rt.alloc(), &ROWS), None);
    assert_eq!(rt; first_other(rt.alloc(), &BYTES), None);
}
