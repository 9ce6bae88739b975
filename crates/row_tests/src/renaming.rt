//! Rows that are renamed.

use crate::table::{HALF, LIMIT, Parts, Written, is_wanted, renamed, row_of};
use lin_row::{Rel, Row, RowFault};
use std::alloc::Global;

/// A row, the new numbers of the variables from 1 on, and what is wanted.
type Case = (Written, &'static [u32], Result<Parts, RowFault>);

static CASES: [Case; 15] = [
    // each stays
    (
        (Rel::Le, [1, 2, 3, 4, 5], 6),
        &[1, 2, 3, 4, 5, 6, 7, 8, 9],
        Ok((Rel::Le, &[(1, 1), (2, 2), (3, 3), (4, 4), (9, 5)], 6)),
    ),
    // the other way round
    (
        (Rel::Eq, [1, 2, 3, 4, 5], 6),
        &[9, 8, 7, 6, 5, 4, 3, 2, 1],
        Ok((Rel::Eq, &[(1, 5), (6, 4), (7, 3), (8, 2), (9, 1)], 6)),
    ),
    // two become one
    (
        (Rel::Le, [1, 0, 2, 0, 0], 0),
        &[4, 5, 4, 7, 8, 9, 10, 11, 12],
        Ok((Rel::Le, &[(4, 1)], 0)),
    ),
    // and cancel
    (
        (Rel::Lt, [1, 0, -1, 1, 0], 0),
        &[4, 5, 4, 7, 8, 9, 10, 11, 12],
        Ok((Rel::Lt, &[(7, 1)], 0)),
    ),
    // all become one
    (
        (Rel::Lt, [1, 2, 3, 4, 5], -5),
        &[7, 7, 7, 7, 7, 7, 7, 7, 7],
        Ok((Rel::Lt, &[(7, 3)], -1)),
    ),
    // all cancel
    (
        (Rel::Eq, [1, -3, 2, 0, 0], 0),
        &[7, 7, 7, 7, 7, 7, 7, 7, 7],
        Ok((Rel::Eq, &[], 0)),
    ),
    // all cancel but the constant
    (
        (Rel::Eq, [1, -3, 2, 0, 0], -4),
        &[7, 7, 7, 7, 7, 7, 7, 7, 7],
        Ok((Rel::Eq, &[], -1)),
    ),
    // a common divisor comes
    (
        (Rel::Le, [1, 1, 0, 4, 0], 0),
        &[2, 2, 3, 1, 1, 1, 1, 1, 1],
        Ok((Rel::Le, &[(1, 2), (2, 1)], 0)),
    ),
    // an equation is turned
    (
        (Rel::Eq, [1, 0, 0, -1, 0], 3),
        &[5, 4, 3, 2, 1, 1, 1, 1, 1],
        Ok((Rel::Eq, &[(2, 1), (5, -1)], -3)),
    ),
    // a sum at the end
    (
        (Rel::Le, [HALF, HALF - 1, 0, 0, 0], 1),
        &[1, 1, 1, 1, 1, 1, 1, 1, 1],
        Ok((Rel::Le, &[(1, i64::MAX)], 1)),
    ),
    // a sum past the end
    (
        (Rel::Le, [HALF, HALF, 0, 0, 0], 1),
        &[1, 1, 1, 1, 1, 1, 1, 1, 1],
        Err(RowFault::Overflow),
    ),
    // a sum past the end, divided
    (
        (Rel::Le, [HALF, HALF, 0, 0, 0], 2),
        &[1, 1, 1, 1, 1, 1, 1, 1, 1],
        Ok((Rel::Le, &[(1, 4611686018427387904)], 1)),
    ),
    // past the end and back
    (
        (Rel::Le, [LIMIT, LIMIT, -LIMIT, 0, 0], 1),
        &[1, 1, 1, 1, 1, 1, 1, 1, 1],
        Ok((Rel::Le, &[(1, i64::MAX)], 1)),
    ),
    // three of four
    (
        (Rel::Lt, [1, 1, 0, 1, 1], 0),
        &[3, 1, 8, 3, 0, 0, 0, 0, 3],
        Ok((Rel::Lt, &[(1, 1), (3, 3)], 0)),
    ),
    // no variables
    ((Rel::Le, [0, 0, 0, 0, 0], 1), &[], Ok((Rel::Le, &[], 1))),
];

fn made_and_renamed(alloc: Global, case: &Case) -> Result<Row, RowFault> {
    let row = row_of(alloc, &case.0)?;
    renamed(alloc, &row, case.1)
}

#[test]
fn renamings(rt: HostRuntime) {
    for (at, case) in CASES.iter().enumerate() {
        assert!(rt;
            is_wanted(made_and_renamed(rt.alloc(), case), &case.2),
            "case {at}"
        );
    }
}
