//! The first faults of steps that define predicates and fold by them, as lines.

use crate::lines::first_fault_in;
use text_fault::TextFault;
use token_model::Kind;

/// A line, the place of its first fault, and its kind.
type Case = (&'static str, u32, Kind);

/// Definitions. The tokens and the grammar of the clause come first, up to and with its end, and then what it stands for.
static DEFINITIONS: [Case; 19] = [
    ("define .", 7, Kind::Unexpected),
    ("define :- q(X).", 7, Kind::Unexpected),
    ("define p(X)", 11, Kind::UnexpectedEnd),
    ("define p(X) :- .", 15, Kind::Unexpected),
    ("define p(X) :- q(X)", 19, Kind::UnexpectedEnd),
    ("define p(X) :- q(X) show find.", 20, Kind::Unexpected),
    ("'define' p(X).", 0, Kind::Unexpected),
    ("define p(X!).", 10, Kind::Unsupported),
    ("define X :- q(X).", 7, Kind::NotAnAtom),
    ("define p(X) :- q(X), X.", 21, Kind::NotAnAtom),
    ("define true :- q(X).", 7, Kind::Reserved),
    ("define p(X) :- {X * X = 1}, q(X).", 18, Kind::NotLinear),
    ("define p(X) :- {X < 1 / 0}, q(X).", 22, Kind::ZeroDivisor),
    (
        "define p(X) :- {X = 9223372036854775807 + 1}, q(X).",
        40,
        Kind::NumberTooLarge,
    ),
    ("define X :- q(X), $.", 18, Kind::BadToken),
    ("define X :- q(X)", 16, Kind::UnexpectedEnd),
    ("define p(X) :- {X * X = 1}, q(X) by.", 33, Kind::Unexpected),
    ("define X :- q(X). $", 7, Kind::NotAnAtom),
    ("define p(X) :- q(X). $", 21, Kind::BadToken),
];

static FOLDS: [Case; 44] = [
    (
        "fold at [1] by n/1 with [] keep [] show [].",
        5,
        Kind::Unexpected,
    ),
    ("fold 4294967296 at [1]", 5, Kind::BadNumber),
    ("fold 1 by n/1", 7, Kind::Unexpected),
    (
        "fold 1 'at' [1] by n/1 with [] keep [] show [].",
        7,
        Kind::Unexpected,
    ),
    (
        "fold 1 at 1 by n/1 with [] keep [] show [].",
        10,
        Kind::Unexpected,
    ),
    ("fold 1 at [,1] by", 11, Kind::Unexpected),
    ("fold 1 at [1,] by", 13, Kind::Unexpected),
    ("fold 1 at [1 2] by", 13, Kind::Unexpected),
    ("fold 1 at [1|2] by", 12, Kind::Unexpected),
    ("fold 1 at [-1] by", 11, Kind::Unexpected),
    ("fold 1 at [V1] by", 11, Kind::Unexpected),
    (
        "fold 1 at [1 by n/1 with [] keep [] show find.",
        13,
        Kind::Unexpected,
    ),
    ("fold 1 at [1,2", 14, Kind::UnexpectedEnd),
    ("fold 1 at [1,4294967296] by", 13, Kind::BadNumber),
    (
        "fold 1 at [9223372036854775808] by",
        11,
        Kind::NumberTooLarge,
    ),
    ("fold 1 at [1]", 13, Kind::UnexpectedEnd),
    ("fold 1 at [1] by N/1 with", 17, Kind::Unexpected),
    ("fold 1 at [1] by []/1 with", 17, Kind::Unexpected),
    (
        "fold 1 at [1] by n with [] keep [] show [].",
        19,
        Kind::Unexpected,
    ),
    ("fold 1 at [1] by n/m with", 19, Kind::Unexpected),
    ("fold 1 at [1] by n/-1 with", 19, Kind::Unexpected),
    ("fold 1 at [1] by n/4294967296 with", 19, Kind::BadNumber),
    (
        "fold 1 at [1] by 'a b'/2 keep [] show [].",
        25,
        Kind::Unexpected,
    ),
    ("fold 1 at [1] by 'a", 17, Kind::BadToken),
    (
        "fold 1 at [1] by n/1 with keep [] show [].",
        26,
        Kind::Unexpected,
    ),
    (
        "fold 1 at [1] by n/1 with [] show find.",
        29,
        Kind::Unexpected,
    ),
    (
        "fold 1 at [1] by n/1 with [] keep show find.",
        34,
        Kind::Unexpected,
    ),
    (
        "fold 1 at [1] by n/1 with [] keep [find] show find.",
        35,
        Kind::Unexpected,
    ),
    (
        "fold 1 at [1] by n/1 with [] keep [].",
        36,
        Kind::Unexpected,
    ),
    (
        "fold 1 at [1] by n/1 with [] keep [] show.",
        41,
        Kind::Unexpected,
    ),
    (
        "fold 1 at [1] by n/1 with [] keep [] show finds.",
        42,
        Kind::Unexpected,
    ),
    (
        "fold 1 at [1] by n/1 with [] keep [] show 'find'.",
        42,
        Kind::Unexpected,
    ),
    (
        "fold 1 at [1] by n/1 with [] keep [] show find, find.",
        46,
        Kind::Unexpected,
    ),
    (
        "fold 1 at [1] by n/1 with [] keep [] show [1].",
        43,
        Kind::Unexpected,
    ),
    (
        "fold 1 at [1] by n/1 with [] keep [] show [[]].",
        44,
        Kind::Unexpected,
    ),
    (
        "fold 1 at [1] by n/1 with [] keep [] show [finds].",
        43,
        Kind::Unexpected,
    ),
    (
        "fold 1 at [1] by n/1 with [] keep [] show ['find'].",
        43,
        Kind::Unexpected,
    ),
    (
        "fold 1 at [1] by n/1 with [] keep [] show [find,].",
        48,
        Kind::Unexpected,
    ),
    (
        "fold 1 at [1] by n/1 with [] keep [] show [[1] [2]].",
        47,
        Kind::Unexpected,
    ),
    (
        "fold 1 at [1] by n/1 with [] keep [] show [[1]/find].",
        47,
        Kind::Unexpected,
    ),
    (
        "fold 1 at [1] by n/1 with [] keep [] show [[72057594037927936]].",
        44,
        Kind::BadNumber,
    ),
    (
        "fold 1 at [1] by n/1 with [] keep [] show [find",
        47,
        Kind::UnexpectedEnd,
    ),
    (
        "fold 1 at [1] by n/1 with [] keep [] show [find]",
        48,
        Kind::UnexpectedEnd,
    ),
    (
        "fold 1 at [1] by n/1 with [] keep [] show [find] keep.",
        49,
        Kind::Unexpected,
    ),
];

#[test]
fn finds_the_first_fault_of_a_definition(rt: HostRuntime) {
    for (line, at, kind) in DEFINITIONS.iter() {
        let wanted = TextFault {
            at: *at,
            kind: *kind,
        };
        assert_eq!(rt; first_fault_in(rt.alloc(), line), Some(wanted), "{line}");
    }
}

#[test]
fn finds_the_first_fault_of_a_fold(rt: HostRuntime) {
    for (line, at, kind) in FOLDS.iter() {
        let wanted = TextFault {
            at: *at,
            kind: *kind,
        };
        assert_eq!(rt; first_fault_in(rt.alloc(), line), Some(wanted), "{line}");
    }
}
