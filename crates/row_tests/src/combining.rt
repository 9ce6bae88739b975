//! Rows that are combined.

ghost use Rattle.std.specs.Prelude.{◌≡◌, ◌≤◌, true, unsigned_abs};
ghost use Rattle.linear_model.specs.Normal.{limit};

use crate::table::{HALF, LIMIT, Parts, Written, is_wanted, row_of};
use lin_row::{Rel, Row, RowFault};
use std::alloc::Global;

/// A relation, two factors, the rows that they go before, and what is wanted.
type Case = (Rel, i64, i64, Written, Written, Result<Parts, RowFault>);

static CASES: [Case; 17] = [
    // different variables
    (
        Rel::Le,
        1,
        1,
        (Rel::Le, [1, 0, 0, 0, 0], 0),
        (Rel::Lt, [0, 0, 1, 0, 0], -1),
        Ok((Rel::Le, &[(1, 1), (3, 1)], -1)),
    ),
    // the same variables, of which one goes
    (
        Rel::Lt,
        1,
        1,
        (Rel::Le, [1, -1, 0, 0, 0], 0),
        (Rel::Lt, [0, 1, -1, 0, 0], 2),
        Ok((Rel::Lt, &[(1, 1), (3, -1)], 2)),
    ),
    // all go
    (
        Rel::Lt,
        1,
        1,
        (Rel::Le, [1, -1, 0, 0, 0], 0),
        (Rel::Lt, [-1, 1, 0, 0, 0], 0),
        Ok((Rel::Lt, &[], 0)),
    ),
    // all go but the constant
    (
        Rel::Le,
        2,
        3,
        (Rel::Le, [3, 0, 0, 0, 0], 5),
        (Rel::Le, [-2, 0, 0, 0, 0], 1),
        Ok((Rel::Le, &[], 1)),
    ),
    // a common divisor comes
    (
        Rel::Le,
        3,
        1,
        (Rel::Le, [2, 0, 0, 1, 0], 0),
        (Rel::Le, [0, 3, 0, 0, 0], 9),
        Ok((Rel::Le, &[(1, 6), (2, 1), (4, 3)], 3)),
    ),
    // times 0
    (
        Rel::Le,
        0,
        5,
        (Rel::Le, [2, 0, 0, 1, 0], 1),
        (Rel::Le, [0, 3, 0, 0, 1], 9),
        Ok((Rel::Le, &[(2, 3), (9, 1)], 9)),
    ),
    // both times 0
    (
        Rel::Eq,
        0,
        0,
        (Rel::Eq, [2, 0, 0, 1, 0], 1),
        (Rel::Le, [0, 3, 0, 0, 1], 9),
        Ok((Rel::Eq, &[], 0)),
    ),
    // an equation is turned
    (
        Rel::Eq,
        -1,
        2,
        (Rel::Eq, [1, 0, 0, 3, 0], 1),
        (Rel::Eq, [0, 1, 0, 0, 5], 0),
        Ok((Rel::Eq, &[(1, 1), (2, -2), (4, 3), (9, -10)], 1)),
    ),
    // five pairs and five
    (
        Rel::Lt,
        1,
        -1,
        (Rel::Lt, [1, 2, 3, 4, 5], 6),
        (Rel::Le, [5, 4, 3, 2, 1], 0),
        Ok((Rel::Lt, &[(1, -2), (2, -1), (4, 1), (9, 2)], 3)),
    ),
    // no pairs
    (
        Rel::Lt,
        1,
        1,
        (Rel::Lt, [0, 0, 0, 0, 0], -1),
        (Rel::Le, [0, 0, 0, 0, 0], 1),
        Ok((Rel::Lt, &[], 0)),
    ),
    // at the ends, divided
    (
        Rel::Le,
        i64::MAX,
        i64::MAX,
        (Rel::Le, [LIMIT, 0, 0, 0, 0], 1),
        (Rel::Le, [LIMIT, 0, 0, 0, 0], -1),
        Ok((Rel::Le, &[(1, 1)], 0)),
    ),
    // at the ends, the greatest sum
    (
        Rel::Le,
        i64::MAX,
        i64::MAX,
        (Rel::Le, [LIMIT, -1, 0, 0, 0], 0),
        (Rel::Le, [LIMIT, -1, 0, 0, 0], 0),
        Ok((Rel::Le, &[(1, i64::MAX), (2, -1)], 0)),
    ),
    // at the ends, not divided
    (
        Rel::Le,
        i64::MAX,
        1,
        (Rel::Le, [LIMIT, 0, 1, 0, 0], 0),
        (Rel::Le, [0, 1, 0, 0, 0], 0),
        Err(RowFault::Overflow),
    ),
    // at the ends, one below 0
    (
        Rel::Lt,
        -i64::MAX,
        i64::MAX,
        (Rel::Le, [LIMIT, -1, 0, 0, 0], 0),
        (Rel::Le, [-LIMIT, -1, 0, 0, 0], 0),
        Ok((Rel::Lt, &[(1, -1)], 0)),
    ),
    // a sum at the end
    (
        Rel::Le,
        1,
        1,
        (Rel::Le, [HALF, 0, 0, 1, 0], 0),
        (Rel::Le, [HALF - 1, 0, 0, 0, 1], 0),
        Ok((Rel::Le, &[(1, i64::MAX), (4, 1), (9, 1)], 0)),
    ),
    // a sum past the end
    (
        Rel::Le,
        1,
        1,
        (Rel::Le, [HALF, 0, 0, 1, 0], 0),
        (Rel::Le, [HALF, 0, 0, 0, 1], 0),
        Err(RowFault::Overflow),
    ),
    // a constant past the end
    (
        Rel::Lt,
        1,
        1,
        (Rel::Le, [1, 0, 0, 0, 0], -HALF),
        (Rel::Le, [0, 0, 0, 1, 0], -HALF),
        Err(RowFault::Overflow),
    ),
];

/// Whether the number's magnitude is below 2^63.
fn is_small(number: i64) -> bool
    ensures { result ≡ true → unsigned_abs number ≤ limit }
{
    number != i64::MIN
}

fn combined(alloc: Global, case: &Case) -> Result<Row, RowFault> {
    let row = row_of(alloc, &case.3)?;
    let other = row_of(alloc, &case.4)?;
    let a = case.1;
    let b = case.2;
    if is_small(a) && is_small(b) {
        row.combine(alloc, case.0, a, b, &other)
    } else {
        Err(RowFault::NoMemory)
    }
}

#[test]
fn combinations(rt: HostRuntime) {
    for (at, case) in CASES.iter().enumerate() {
        assert!(rt; is_wanted(combined(rt.alloc(), case), &case.5), "case {at}");
    }
}
