//! Rows that are negated, flipped and halved, and what is known of a row without its variables.

use crate::table::{LIMIT, Parts, Written, has, row_of};
use lin_row::{Rel, Row, RowFault, Truth};
use std::alloc::Global;

/// An inequality, its negation, and the row of the opposite sum.
static INEQUALITIES: [(Written, Parts, Parts); 6] = [
    (
        (Rel::Le, [2, 0, -3, 0, 0], 1),
        (Rel::Lt, &[(1, -2), (3, 3)], -1),
        (Rel::Le, &[(1, -2), (3, 3)], -1),
    ),
    (
        (Rel::Lt, [2, 0, -3, 0, 0], 1),
        (Rel::Le, &[(1, -2), (3, 3)], -1),
        (Rel::Lt, &[(1, -2), (3, 3)], -1),
    ),
    (
        (Rel::Lt, [0, 0, 0, 0, 0], 0),
        (Rel::Le, &[], 0),
        (Rel::Lt, &[], 0),
    ),
    (
        (Rel::Le, [0, 0, 0, 0, 0], -7),
        (Rel::Lt, &[], 1),
        (Rel::Le, &[], 1),
    ),
    (
        (Rel::Le, [LIMIT, -LIMIT, 0, 0, 1], -LIMIT),
        (Rel::Lt, &[(1, -i64::MAX), (2, i64::MAX), (9, -1)], i64::MAX),
        (Rel::Le, &[(1, -i64::MAX), (2, i64::MAX), (9, -1)], i64::MAX),
    ),
    (
        (Rel::Lt, [1, 1, 1, 1, 1], 0),
        (Rel::Le, &[(1, -1), (2, -1), (3, -1), (4, -1), (9, -1)], 0),
        (Rel::Lt, &[(1, -1), (2, -1), (3, -1), (4, -1), (9, -1)], 0),
    ),
];

/// A row, and its half `L =< 0`.
static HALVES: [(Written, Parts); 4] = [
    (
        (Rel::Eq, [-2, 0, 6, 0, 0], 4),
        (Rel::Le, &[(1, 1), (3, -3)], -2),
    ),
    ((Rel::Eq, [0, 0, 0, 0, 0], -4), (Rel::Le, &[], -1)),
    (
        (Rel::Lt, [1, 2, 3, 4, 5], 0),
        (Rel::Le, &[(1, 1), (2, 2), (3, 3), (4, 4), (9, 5)], 0),
    ),
    ((Rel::Le, [0, 0, 0, 0, -5], 0), (Rel::Le, &[(9, -1)], 0)),
];

static TRUTHS: [(Written, Truth); 11] = [
    ((Rel::Eq, [0, 0, 0, 0, 0], 0), Truth::Always),
    ((Rel::Eq, [0, 0, 0, 0, 0], 1), Truth::Never),
    ((Rel::Eq, [0, 0, 0, 0, 0], -1), Truth::Never),
    ((Rel::Le, [0, 0, 0, 0, 0], 0), Truth::Always),
    ((Rel::Le, [0, 0, 0, 0, 0], -LIMIT), Truth::Always),
    ((Rel::Le, [0, 0, 0, 0, 0], 1), Truth::Never),
    ((Rel::Lt, [0, 0, 0, 0, 0], 0), Truth::Never),
    ((Rel::Lt, [0, 0, 0, 0, 0], -1), Truth::Always),
    ((Rel::Lt, [0, 0, 0, 0, 0], LIMIT), Truth::Never),
    ((Rel::Le, [0, 0, 0, 0, 1], 0), Truth::Depends),
    ((Rel::Eq, [1, 2, 3, 4, 5], 0), Truth::Depends),
];

/// A row, a variable, and its coefficient in the normal form.
static COEFFICIENTS: [(Written, u32, i64); 8] = [
    ((Rel::Le, [2, 0, -6, 0, 4], 8), 1, 1),
    ((Rel::Le, [2, 0, -6, 0, 4], 8), 2, 0),
    ((Rel::Le, [2, 0, -6, 0, 4], 8), 3, -3),
    ((Rel::Le, [2, 0, -6, 0, 4], 8), 9, 2),
    ((Rel::Le, [2, 0, -6, 0, 4], 8), 10, 0),
    ((Rel::Le, [2, 0, -6, 0, 4], 8), 0, 0),
    ((Rel::Lt, [0, 0, 0, 0, -LIMIT], 1), 9, -i64::MAX),
    ((Rel::Eq, [0, 0, 0, 0, 0], 1), 1, 0),
];

fn is_turned(alloc: Global, case: &(Written, Parts, Parts)) -> Result<bool, RowFault> {
    let row = row_of(alloc, &case.0)?;
    let copy = row.copy(alloc)?;
    match row.rel() {
        Rel::Eq => Ok(false),
        Rel::Le | Rel::Lt => {
            let negated = row.negate();
            let flipped = copy.flip();
            Ok(has(&negated, &case.1) && has(&flipped, &case.2))
        }
    }
}

fn is_halved(alloc: Global, case: &(Written, Parts)) -> Result<bool, RowFault> {
    let half = row_of(alloc, &case.0)?.at_most(alloc)?;
    Ok(has(&half, &case.1))
}

fn truth(row: Result<Row, RowFault>) -> Option<Truth> {
    match &row {
        Ok(row) => Some(row.truth()),
        Err(_) => None,
    }
}

fn coefficient(row: Result<Row, RowFault>, variable: u32) -> Option<i64> {
    match &row {
        Ok(row) => Some(row.coefficient(variable)),
        Err(_) => None,
    }
}

#[test]
fn inequalities_are_turned(rt: HostRuntime) {
    for (at, case) in INEQUALITIES.iter().enumerate() {
        assert!(rt; is_turned(rt.alloc(), case) == Ok(true), "case {at}");
    }
}

#[test]
fn halves(rt: HostRuntime) {
    for (at, case) in HALVES.iter().enumerate() {
        assert!(rt; is_halved(rt.alloc(), case) == Ok(true), "case {at}");
    }
}

#[test]
fn truths_and_coefficients(rt: HostRuntime) {
    for (at, case) in TRUTHS.iter().enumerate() {
        assert!(rt;
            truth(row_of(rt.alloc(), &case.0)) == Some(case.1),
            "case {at}"
        );
    }
    for (at, case) in COEFFICIENTS.iter().enumerate() {
        assert!(rt;
            coefficient(row_of(rt.alloc(), &case.0), case.1) == Some(case.2),
            "case {at}"
        );
    }
}
