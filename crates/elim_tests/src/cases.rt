//! The rows that eliminations give, with fractions worked out apart from the code.

use elim_rows::{ElimFault, eliminate};
use lin_row::{Rel, Row, RowFault};
use std::alloc::Global;

/// The greatest number of a row, and half of 2^63.
const END: i64 = 9_223_372_036_854_775_807;

const HALF: i64 = 4_611_686_018_427_387_904;

/// A relation, the coefficients of the variables 1 to 4, and a constant.
type Written = (Rel, [i64; 4], i64);

/// Rows, a variable, and what its elimination from the rows gives.
type Case = (
    &'static [Written],
    u32,
    Result<&'static [Written], ElimFault>,
);

static CASES: [Case; 25] = [
    // no rows
    (&[], 1, Ok(&[])),
    // by an equation: rows are combined in their places, and one without the variable stays
    (
        &[
            (Rel::Le, [3, 0, 1, 0], -5),
            (Rel::Eq, [1, -2, 0, 0], 0),
            (Rel::Lt, [0, 1, 0, 0], 0),
        ],
        1,
        Ok(&[(Rel::Le, [0, 6, 1, 0], -5), (Rel::Lt, [0, 1, 0, 0], 0)]),
    ),
    // an equation with a negative coefficient, and coefficients of both signs with a common divisor
    (
        &[
            (Rel::Eq, [1, -2, 0, 0], 0),
            (Rel::Lt, [0, 3, 2, 0], 0),
            (Rel::Le, [0, -4, 0, 0], 1),
        ],
        2,
        Ok(&[(Rel::Lt, [3, 0, 4, 0], 0), (Rel::Le, [-2, 0, 0, 0], 1)]),
    ),
    // the first of three equations
    (
        &[
            (Rel::Eq, [0, 0, 1, 0], -1),
            (Rel::Eq, [1, -1, 0, 0], 0),
            (Rel::Eq, [1, 1, 0, 0], -4),
            (Rel::Eq, [1, 0, -3, 0], 0),
        ],
        1,
        Ok(&[
            (Rel::Eq, [0, 0, 1, 0], -1),
            (Rel::Eq, [0, 1, 0, 0], -2),
            (Rel::Eq, [0, 1, -3, 0], 0),
        ]),
    ),
    // an equation is flipped where its first coefficient becomes negative
    (
        &[(Rel::Eq, [1, 1, 0, 0], 0), (Rel::Eq, [1, 0, -1, 0], 0)],
        1,
        Ok(&[(Rel::Eq, [0, 1, 1, 0], 0)]),
    ),
    // one's bounds strict
    (
        &[(Rel::Lt, [1, 0, -1, 0], 0), (Rel::Le, [0, -1, 1, 0], 0)],
        3,
        Ok(&[(Rel::Lt, [1, -1, 0, 0], 0)]),
    ),
    // two bounds each way, strict and not, in their order behind the others
    (
        &[
            (Rel::Le, [1, 0, -1, 0], 0),
            (Rel::Le, [0, 0, 1, -1], 0),
            (Rel::Lt, [0, 1, -1, 0], 0),
            (Rel::Lt, [0, 0, 1, 0], -7),
            (Rel::Le, [1, 1, 0, 0], 0),
        ],
        3,
        Ok(&[
            (Rel::Le, [1, 1, 0, 0], 0),
            (Rel::Le, [1, 0, 0, -1], 0),
            (Rel::Lt, [1, 0, 0, 0], -7),
            (Rel::Lt, [0, 1, 0, -1], 0),
            (Rel::Lt, [0, 1, 0, 0], -7),
        ]),
    ),
    // bounds on one side alone: below
    (
        &[(Rel::Le, [1, 0, -1, 0], 0), (Rel::Lt, [0, 1, -1, 0], 0)],
        3,
        Ok(&[]),
    ),
    // bounds on one side alone: above
    (
        &[
            (Rel::Le, [-1, 0, 1, 0], 0),
            (Rel::Lt, [0, 0, 1, 0], -7),
            (Rel::Lt, [0, 1, 0, 0], 2),
        ],
        3,
        Ok(&[(Rel::Lt, [0, 1, 0, 0], 2)]),
    ),
    // no bound
    (
        &[(Rel::Le, [1, 2, 0, 0], 0), (Rel::Eq, [0, 0, 1, 0], -1)],
        4,
        Ok(&[(Rel::Le, [1, 2, 0, 0], 0), (Rel::Eq, [0, 0, 1, 0], -1)]),
    ),
    // common divisors of coefficients
    (
        &[(Rel::Le, [-6, 0, 0, 0], 1), (Rel::Lt, [4, -1, 0, 0], 0)],
        1,
        Ok(&[(Rel::Lt, [0, -3, 0, 0], 2)]),
    ),
    // true constants are dropped
    (
        &[
            (Rel::Le, [0, 0, 0, 0], -1),
            (Rel::Eq, [0, 0, 0, 0], 0),
            (Rel::Le, [-1, 0, 0, 0], 1),
            (Rel::Le, [1, 0, 0, 0], -2),
            (Rel::Lt, [1, 0, 0, 0], -1),
        ],
        1,
        Ok(&[(Rel::Lt, [0, 0, 0, 0], 0)]),
    ),
    // false constants stay
    (
        &[
            (Rel::Eq, [0, 0, 0, 0], 1),
            (Rel::Lt, [0, 0, 0, 0], 0),
            (Rel::Le, [-1, 0, 0, 0], 1),
            (Rel::Lt, [1, 0, 0, 0], -1),
            (Rel::Le, [1, 0, 0, 0], 0),
        ],
        1,
        Ok(&[
            (Rel::Eq, [0, 0, 0, 0], 1),
            (Rel::Lt, [0, 0, 0, 0], 0),
            (Rel::Le, [0, 0, 0, 0], 1),
        ]),
    ),
    // repeats are dropped
    (
        &[
            (Rel::Le, [1, -1, 0, 0], 0),
            (Rel::Le, [1, 0, -1, 0], 0),
            (Rel::Le, [0, -1, 1, 0], 0),
            (Rel::Le, [2, 0, -2, 0], 0),
            (Rel::Lt, [1, -1, 0, 0], 0),
        ],
        3,
        Ok(&[(Rel::Le, [1, -1, 0, 0], 0), (Rel::Lt, [1, -1, 0, 0], 0)]),
    ),
    // rows stay where no variable of that number is
    (
        &[(Rel::Le, [1, -1, 0, 0], 0), (Rel::Le, [2, -2, 0, 0], 0)],
        4,
        Ok(&[(Rel::Le, [1, -1, 0, 0], 0)]),
    ),
    // largest coefficient
    (
        &[
            (Rel::Le, [HALF, HALF, 0, 0], 1),
            (Rel::Eq, [1, -1, 0, 0], 0),
        ],
        1,
        Err(ElimFault::Overflow),
    ),
    // largest coefficient within
    (
        &[
            (Rel::Le, [HALF, HALF - 1, 0, 0], 1),
            (Rel::Eq, [1, -1, 0, 0], 0),
        ],
        1,
        Ok(&[(Rel::Le, [0, END, 0, 0], 1)]),
    ),
    // smallest within
    (
        &[
            (Rel::Le, [-HALF, 1 - HALF, 0, 0], 1),
            (Rel::Eq, [1, -1, 0, 0], 0),
        ],
        1,
        Ok(&[(Rel::Le, [0, -END, 0, 0], 1)]),
    ),
    // past below
    (
        &[
            (Rel::Le, [-HALF, -HALF, 0, 0], 1),
            (Rel::Eq, [1, -1, 0, 0], 0),
        ],
        1,
        Err(ElimFault::Overflow),
    ),
    // constant past
    (
        &[(Rel::Le, [-1, 1, 0, 0], END), (Rel::Le, [1, 0, -1, 0], 1)],
        1,
        Err(ElimFault::Overflow),
    ),
    // constant at the end
    (
        &[
            (Rel::Le, [-1, 1, 0, 0], END - 1),
            (Rel::Le, [1, 0, -1, 0], 1),
        ],
        1,
        Ok(&[(Rel::Le, [0, 1, -1, 0], END)]),
    ),
    // ends cancel
    (
        &[(Rel::Le, [-END, 1, 0, 0], 0), (Rel::Le, [END, 0, -1, 0], 0)],
        1,
        Ok(&[(Rel::Le, [0, 1, -1, 0], 0)]),
    ),
    // coprime ends
    (
        &[
            (Rel::Le, [-END, 1, 0, 0], 0),
            (Rel::Le, [END - 1, 0, -1, 0], 0),
        ],
        1,
        Ok(&[(Rel::Le, [0, END - 1, -END, 0], 0)]),
    ),
    // divided away
    (
        &[
            (Rel::Le, [-1, HALF, 1, 0], 1),
            (Rel::Le, [1, HALF, 1, 0], 1),
        ],
        1,
        Ok(&[(Rel::Le, [0, HALF, 1, 0], 1)]),
    ),
    // not divided away
    (
        &[
            (Rel::Le, [-1, HALF, 1, 0], 1),
            (Rel::Le, [1, HALF, 2, 0], 1),
        ],
        1,
        Err(ElimFault::Overflow),
    ),
];

fn row_of(alloc: Global, written: &Written) -> Result<Row, RowFault> {
    let (rel, c, constant) = *written;
    let pairs = [
        (1, c[0] as i128),
        (2, c[1] as i128),
        (3, c[2] as i128),
        (4, c[3] as i128),
    ];
    Row::make(alloc, rel, &pairs, constant as i128)
}

fn rows_of(alloc: Global, written: &[Written]) -> Result<Vec<Row>, RowFault> {
    let mut rows = Vec::new(alloc);
    for one in written {
        let row = row_of(alloc, one)?;
        match rows.push(row) {
            Ok(()) => {}
            Err(_) => return Err(RowFault::NoMemory),
        }
    }
    Ok(rows)
}

fn are_same(left: &[Row], wanted: &[Row]) -> bool {
    left == wanted
}

/// Whether the case's elimination gives what is wanted.
fn is_given(alloc: Global, case: &Case) -> Result<bool, RowFault> {
    let rows = rows_of(alloc, case.0)?;
    if rows.len() > 128 {
        return Ok(false);
    }
    match (eliminate(alloc, rows.as_slice(), case.1), case.2) {
        (Ok(left), Ok(wanted)) => {
            let wanted = rows_of(alloc, wanted)?;
            Ok(are_same(left.as_slice(), wanted.as_slice()))
        }
        (Err(fault), Err(wanted)) => Ok(fault == wanted),
        _ => Ok(false),
    }
}

#[test]
fn eliminations(rt: HostRuntime) {
    for (at, case) in CASES.iter().enumerate() {
        assert!(rt; is_given(rt.alloc(), case) == Ok(true), "case {at}");
    }
}
