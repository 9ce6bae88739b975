//! Rows that are made: normal forms, and both sides of the limit.

use crate::table::{HALF, LIMIT, MIDDLE, PAST, Parts, Written, is_wanted, row_of};
use lin_row::{Rel, RowFault, gcd};

type Case = (Written, Result<Parts, RowFault>);

static CASES: [Case; 29] = [
    // no pairs
    ((Rel::Le, [0, 0, 0, 0, 0], 0), Ok((Rel::Le, &[], 0))),
    // no pairs, and the constant over itself
    ((Rel::Lt, [0, 0, 0, 0, 0], -6), Ok((Rel::Lt, &[], -1))),
    // a false equation
    ((Rel::Eq, [0, 0, 0, 0, 0], 12), Ok((Rel::Eq, &[], 1))),
    // the constant's sign stays where an equation has no variable
    ((Rel::Eq, [0, 0, 0, 0, 0], -3), Ok((Rel::Eq, &[], -1))),
    // four pairs
    (
        (Rel::Le, [2, -4, 6, 8, 0], 10),
        Ok((Rel::Le, &[(1, 1), (2, -2), (3, 3), (4, 4)], 5)),
    ),
    // five pairs
    (
        (Rel::Lt, [3, 6, -9, 12, 15], 0),
        Ok((Rel::Lt, &[(1, 1), (2, 2), (3, -3), (4, 4), (9, 5)], 0)),
    ),
    // an equation that begins below 0
    (
        (Rel::Eq, [0, -2, 4, 0, 0], 6),
        Ok((Rel::Eq, &[(2, 1), (3, -2)], -3)),
    ),
    // and one that does not
    (
        (Rel::Eq, [0, 2, -4, 0, 0], -6),
        Ok((Rel::Eq, &[(2, 1), (3, -2)], -3)),
    ),
    // an inequality keeps its sign
    (
        (Rel::Le, [-2, 0, 0, 4, 0], 6),
        Ok((Rel::Le, &[(1, -1), (4, 2)], 3)),
    ),
    // no common divisor
    (
        (Rel::Lt, [6, 10, 15, 0, 0], 0),
        Ok((Rel::Lt, &[(1, 6), (2, 10), (3, 15)], 0)),
    ),
    // the constant alone has no divisor
    (
        (Rel::Le, [4, 8, 0, 0, 0], 3),
        Ok((Rel::Le, &[(1, 4), (2, 8)], 3)),
    ),
    // one variable
    ((Rel::Lt, [0, 0, 0, 0, -7], 0), Ok((Rel::Lt, &[(9, -1)], 0))),
    // the greatest coefficient
    (
        (Rel::Le, [LIMIT, 0, 0, 0, 0], 1),
        Ok((Rel::Le, &[(1, i64::MAX)], 1)),
    ),
    // the least coefficient
    (
        (Rel::Le, [-LIMIT, 1, 0, 0, 0], 0),
        Ok((Rel::Le, &[(1, -i64::MAX), (2, 1)], 0)),
    ),
    // the greatest constant
    (
        (Rel::Lt, [1, 0, 0, 0, 0], LIMIT),
        Ok((Rel::Lt, &[(1, 1)], i64::MAX)),
    ),
    // the least constant
    (
        (Rel::Lt, [1, 0, 0, 0, 0], -LIMIT),
        Ok((Rel::Lt, &[(1, 1)], -i64::MAX)),
    ),
    // past the greatest coefficient
    ((Rel::Le, [PAST, 0, 0, 0, 0], 1), Err(RowFault::Overflow)),
    // past the least
    ((Rel::Le, [1, 0, -PAST, 0, 0], 0), Err(RowFault::Overflow)),
    // past the greatest constant
    ((Rel::Eq, [1, 0, 0, 0, 0], PAST), Err(RowFault::Overflow)),
    // past the least
    ((Rel::Lt, [0, 0, 0, 0, 1], -PAST), Err(RowFault::Overflow)),
    // 2^63 that the divisor takes away
    (
        (Rel::Le, [PAST, 0, 0, 0, 0], 2),
        Ok((Rel::Le, &[(1, 4611686018427387904)], 1)),
    ),
    // 2^63 alone
    (
        (Rel::Lt, [0, PAST, 0, 0, 0], 0),
        Ok((Rel::Lt, &[(2, 1)], 0)),
    ),
    // a constant alone
    ((Rel::Le, [0, 0, 0, 0, 0], -PAST), Ok((Rel::Le, &[], -1))),
    // 128 bits
    (
        (Rel::Le, [i128::MAX, 0, 0, 0, i128::MAX], i128::MAX),
        Ok((Rel::Le, &[(1, 1), (9, 1)], 1)),
    ),
    // 128 bits the other way
    (
        (Rel::Eq, [-i128::MAX, 0, 0, i128::MAX, 0], -i128::MAX),
        Ok((Rel::Eq, &[(1, 1), (4, -1)], 1)),
    ),
    // 128 bits without divisor
    (
        (Rel::Le, [i128::MAX, 1, 0, 0, 0], 0),
        Err(RowFault::Overflow),
    ),
    // the least of 128 bits
    (
        (Rel::Eq, [i128::MIN, MIDDLE, 0, 0, 0], 0),
        Ok((Rel::Eq, &[(1, 2), (2, -1)], 0)),
    ),
    // a quotient at the end
    (
        (Rel::Lt, [2 * LIMIT, 0, 2, 0, 0], -2 * LIMIT),
        Ok((Rel::Lt, &[(1, i64::MAX), (3, 1)], -i64::MAX)),
    ),
    // and past it
    (
        (Rel::Lt, [2 * PAST, 0, 2, 0, 0], -2 * LIMIT),
        Err(RowFault::Overflow),
    ),
];

static DIVISORS: [((u128, u128), u128); 9] = [
    ((0, 0), 0),
    ((0, 7), 7),
    ((7, 0), 7),
    ((12, 18), 6),
    ((1, u128::MAX), 1),
    ((i128::MAX as u128, i128::MAX as u128), i128::MAX as u128),
    ((u128::MAX, u64::MAX as u128), u64::MAX as u128),
    ((1 << 127, 3 << 100), 1 << 100),
    ((3 << 126, 1 << 126), 1 << 126),
];

#[test]
fn rows_are_made(rt: HostRuntime) {
    for (at, case) in CASES.iter().enumerate() {
        assert!(rt;
            is_wanted(row_of(rt.alloc(), &case.0), &case.1),
            "case {at}"
        );
    }
}

#[test]
fn divisors(rt: HostRuntime) {
    for (at, case) in DIVISORS.iter().enumerate() {
        assert!(rt; gcd(case.0.0, case.0.1) == case.1, "case {at}");
    }
}
