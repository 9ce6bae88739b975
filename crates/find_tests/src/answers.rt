//! What the finder answers: certificates, what isn't entailed, and each fault once. The expected answers were worked
//! out by hand, and those of the drawn rows by a program apart, in another language, from the definition of the chain.

use entail_find::{FindFault, Found, find, find_false};
use farkas_check::{Cert, Part};
use lin_row::{Rel, Row, RowFault};
use std::alloc::Global;

/// A row over V1 to V4: its relation, their coefficients, and its constant.
type Data = (Rel, [i64; 4], i64);

/// A multiplier for the target, and one for each row.
type Weights = (i64, &'static [i64]);

/// What is to be answered.
#[derive(Clone, Copy)]
enum Expected {
    One(Weights),
    Two(Weights, Weights),
    NotEntailed,
    Fault(FindFault),
}

fn row(alloc: Global, data: &Data) -> Result<Row, RowFault> {
    let (rel, [a, b, c, d], constant) = *data;
    Row::make(
        alloc,
        rel,
        &[
            (1, a as i128),
            (2, b as i128),
            (3, c as i128),
            (4, d as i128),
        ],
        constant as i128,
    )
}

fn rows(alloc: Global, data: &[Data]) -> Result<Vec<Row>, RowFault> {
    let mut made = Vec::new(alloc);
    for one in data {
        made.push(row(alloc, one)?).map_err(|_| RowFault::NoMemory)?;
    }
    Ok(made)
}

fn is_part(part: &Part, wanted: &Weights) -> bool {
    part.k() == wanted.0 && part.multipliers() == wanted.1
}

fn is_wanted(answer: &Result<Found, FindFault>, wanted: &Expected) -> bool {
    match (answer, wanted) {
        (Ok(Found::Shown(Cert::One(part))), Expected::One(weights)) => is_part(part, weights),
        (Ok(Found::Shown(Cert::Two(part, other))), Expected::Two(weights, others)) => {
            is_part(part, weights) && is_part(other, others)
        }
        (Ok(Found::NotEntailed), Expected::NotEntailed) => true,
        (Err(fault), Expected::Fault(other)) => *fault == *other,
        _ => false,
    }
}

/// Whether the answer for a target is the wanted one.
fn answers(
    alloc: Global,
    given: &[Data],
    target: &Data,
    wanted: &Expected,
) -> Result<bool, RowFault> {
    let rows = rows(alloc, given)?;
    let target = row(alloc, target)?;
    if rows.len() > 128 {
        return Err(RowFault::Overflow);
    }
    Ok(is_wanted(&find(alloc, &rows, &target), wanted))
}

/// Whether the answer without a target is the wanted one.
fn answers_false(alloc: Global, given: &[Data], wanted: &Expected) -> Result<bool, RowFault> {
    let rows = rows(alloc, given)?;
    if rows.len() > 128 {
        return Err(RowFault::Overflow);
    }
    Ok(is_wanted(&find_false(alloc, &rows), wanted))
}

#[test]
fn targets_are_answered(rt: HostRuntime) {
    let alloc = rt.alloc();
    let cases: [(&[Data], Data, Expected); 33] = [
        // the worked example: `V1 < 0` and `V1 - V2 - 1 = 0` give `V2 < 0`
        (
            &[(Rel::Lt, [1, 0, 0, 0], 0), (Rel::Eq, [1, -1, 0, 0], -1)],
            (Rel::Lt, [0, 1, 0, 0], 0),
            Expected::One((1, &[1, -1])),
        ),
        // no rows: a true target, one that is not, and one that is false
        (&[], (Rel::Le, [0, 0, 0, 0], -1), Expected::One((1, &[]))),
        (&[], (Rel::Lt, [1, 0, 0, 0], 0), Expected::NotEntailed),
        (&[], (Rel::Lt, [0, 0, 0, 0], 0), Expected::NotEntailed),
        // a true target with rows
        (
            &[(Rel::Le, [1, 0, 0, 0], 0)],
            (Rel::Le, [0, 0, 0, 0], 0),
            Expected::One((1, &[0])),
        ),
        // a false row at the start, the first of two
        (
            &[
                (Rel::Le, [1, 0, 0, 0], 0),
                (Rel::Lt, [0, 0, 0, 0], 0),
                (Rel::Eq, [0, 0, 0, 0], 1),
            ],
            (Rel::Lt, [0, 0, 1, 0], 0),
            Expected::One((0, &[0, 1, 0])),
        ),
        // a false equation whose constant is below 0: the sign changes
        (
            &[(Rel::Eq, [0, 0, 0, 0], -1)],
            (Rel::Lt, [0, 0, 1, 0], 0),
            Expected::One((0, &[-1])),
        ),
        // an equation: both halves, the first not, the second not
        (
            &[(Rel::Le, [1, -1, 0, 0], 0), (Rel::Le, [-1, 1, 0, 0], 0)],
            (Rel::Eq, [1, -1, 0, 0], 0),
            Expected::Two((1, &[1, 0]), (1, &[0, 1])),
        ),
        (
            &[(Rel::Le, [-1, 1, 0, 0], 0)],
            (Rel::Eq, [1, -1, 0, 0], 0),
            Expected::NotEntailed,
        ),
        (
            &[(Rel::Le, [1, -1, 0, 0], 0)],
            (Rel::Eq, [1, -1, 0, 0], 0),
            Expected::NotEntailed,
        ),
        // an equation from equations
        (
            &[(Rel::Eq, [2, -1, 0, 0], -1), (Rel::Eq, [1, 0, -1, 0], 0)],
            (Rel::Eq, [0, 1, -2, 0], 1),
            Expected::Two((1, &[-1, 2]), (1, &[1, -2])),
        ),
        // strictness
        (
            &[(Rel::Le, [1, -1, 0, 0], 0)],
            (Rel::Lt, [1, -1, 0, 0], 0),
            Expected::NotEntailed,
        ),
        (
            &[(Rel::Lt, [1, -1, 0, 0], 0), (Rel::Le, [0, 1, -1, 0], 0)],
            (Rel::Lt, [1, 0, -1, 0], 0),
            Expected::One((1, &[1, 1])),
        ),
        // a stronger constant, and a weaker one
        (
            &[(Rel::Le, [1, 0, 0, 0], 1)],
            (Rel::Lt, [1, 0, 0, 0], 0),
            Expected::One((1, &[1])),
        ),
        (
            &[(Rel::Le, [1, 0, 0, 0], -1)],
            (Rel::Le, [1, 0, 0, 0], 0),
            Expected::NotEntailed,
        ),
        // the greatest coefficients cancel
        (
            &[
                (Rel::Le, [9_223_372_036_854_775_807, 1, 0, 0], 0),
                (Rel::Le, [-9_223_372_036_854_775_807, 0, 1, 0], 0),
            ],
            (Rel::Le, [0, 1, 1, 0], 0),
            Expected::One((1, &[1, 1])),
        ),
        // a coefficient leaves its range
        (
            &[
                (
                    Rel::Le,
                    [9_223_372_036_854_775_807, 4_611_686_018_427_387_904, 0, 0],
                    0,
                ),
                (
                    Rel::Le,
                    [-9_223_372_036_854_775_806, 0, 4_611_686_018_427_387_903, 0],
                    0,
                ),
            ],
            (Rel::Lt, [0, 0, 0, 1], 0),
            Expected::Fault(FindFault::Overflow),
        ),
        // a multiplier leaves its range, and stays just in it
        (
            &[
                (Rel::Le, [72_057_594_037_927_936, 0, 1, 0], 0),
                (Rel::Le, [-72_057_594_037_927_935, 1, 0, 0], 0),
            ],
            (Rel::Le, [0, 1, 0, 0], 0),
            Expected::Fault(FindFault::Overflow),
        ),
        (
            &[
                (Rel::Le, [72_057_594_037_927_935, 0, 1, 0], 0),
                (Rel::Le, [-72_057_594_037_927_934, 1, 0, 0], 0),
            ],
            (
                Rel::Le,
                [0, 72_057_594_037_927_935, 72_057_594_037_927_934, 0],
                0,
            ),
            Expected::One((1, &[72_057_594_037_927_934, 72_057_594_037_927_935])),
        ),
        // drawn rows
        (
            &[
                (Rel::Le, [0, 2, -3, 0], -3),
                (Rel::Lt, [-3, -1, 1, 0], -3),
                (Rel::Lt, [-2, -3, -3, 0], 0),
                (Rel::Le, [-3, -2, -3, 0], 1),
            ],
            (Rel::Le, [-2, 2, -2, 0], 1),
            Expected::NotEntailed,
        ),
        (
            &[
                (Rel::Lt, [-3, 1, 1, 0], 0),
                (Rel::Eq, [-2, -3, 1, 0], 3),
                (Rel::Le, [-1, 0, -2, 0], 1),
                (Rel::Eq, [1, -1, 1, 0], 3),
                (Rel::Le, [-3, 1, 1, 0], 2),
            ],
            (Rel::Eq, [0, -2, 2, 0], -1),
            Expected::Two((0, &[4, 3, 7, 13, 0]), (0, &[4, 3, 7, 13, 0])),
        ),
        (
            &[
                (Rel::Eq, [1, -2, 0, 0], 2),
                (Rel::Lt, [0, 3, -1, 0], 0),
                (Rel::Lt, [0, -1, -1, 0], -2),
                (Rel::Le, [2, 3, -2, 0], -3),
                (Rel::Lt, [-1, 1, 0, 0], -1),
            ],
            (Rel::Lt, [1, 0, 2, 0], -1),
            Expected::NotEntailed,
        ),
        (
            &[
                (Rel::Lt, [0, -2, 3, 0], -1),
                (Rel::Le, [0, 0, -3, 0], 2),
                (Rel::Eq, [3, 1, 1, 0], 3),
            ],
            (Rel::Le, [0, 0, 2, 0], 5),
            Expected::NotEntailed,
        ),
        (
            &[
                (Rel::Le, [-3, 3, -3, 0], -1),
                (Rel::Le, [2, 2, -3, 0], -3),
                (Rel::Lt, [2, 1, 2, 0], 3),
                (Rel::Le, [-1, 2, 0, 0], 2),
                (Rel::Lt, [-3, 0, -1, 0], -2),
            ],
            (Rel::Lt, [-2, 1, -2, 0], 1),
            Expected::NotEntailed,
        ),
        (
            &[
                (Rel::Lt, [1, 2, 2, 0], 2),
                (Rel::Eq, [0, 3, 3, 0], 3),
                (Rel::Lt, [0, 0, 0, 0], 0),
                (Rel::Eq, [0, 2, 0, 0], -3),
                (Rel::Le, [-3, -2, 0, 0], -2),
            ],
            (Rel::Eq, [0, 2, -2, 0], -1),
            Expected::Two((0, &[0, 0, 1, 0, 0]), (0, &[0, 0, 1, 0, 0])),
        ),
        (
            &[
                (Rel::Eq, [-3, 2, 0, 0], 0),
                (Rel::Lt, [3, -2, 2, 0], 3),
                (Rel::Lt, [0, -3, 1, 0], -2),
                (Rel::Le, [0, 0, -1, 0], -1),
                (Rel::Lt, [-1, 2, 2, 0], 2),
            ],
            (Rel::Le, [1, -1, 0, 0], 5),
            Expected::One((0, &[-1, 1, 0, 2, 0])),
        ),
        (
            &[
                (Rel::Le, [0, -1, 3, 0], 3),
                (Rel::Eq, [-2, -3, 0, 0], 2),
                (Rel::Le, [1, 0, -3, 0], -3),
                (Rel::Le, [3, 1, 3, 0], 0),
            ],
            (Rel::Le, [-1, -2, -1, 0], 0),
            Expected::One((3, &[0, -2, 1, 0])),
        ),
        (
            &[
                (Rel::Le, [2, 3, -3, 0], -3),
                (Rel::Eq, [-1, 1, 1, 0], -2),
                (Rel::Le, [-1, -2, 3, 0], 1),
                (Rel::Eq, [-3, 1, -1, 0], 0),
                (Rel::Lt, [-1, 2, 3, 0], -2),
            ],
            (Rel::Le, [2, -1, 2, 0], 1),
            Expected::One((0, &[0, 5, 0, -1, 2])),
        ),
        (
            &[
                (Rel::Eq, [3, -3, -1, 0], -2),
                (Rel::Eq, [1, -1, -1, 0], -1),
                (Rel::Lt, [1, -3, -1, 0], 2),
                (Rel::Lt, [-1, -1, -3, 0], 2),
            ],
            (Rel::Lt, [-2, -2, -1, 0], -1),
            Expected::One((2, &[-3, 1, 4, 0])),
        ),
        (
            &[
                (Rel::Le, [3, 0, 3, 0], -1),
                (Rel::Le, [3, 0, -2, 0], 0),
                (Rel::Le, [-3, 3, 2, 0], -1),
                (Rel::Le, [1, -2, -1, 0], 3),
            ],
            (Rel::Le, [1, 0, 2, 0], -1),
            Expected::One((12, &[7, 0, 6, 9])),
        ),
        (
            &[
                (Rel::Le, [1, 3, -2, 0], 3),
                (Rel::Le, [-2, 1, -2, 0], -3),
                (Rel::Le, [1, -2, 0, 0], -1),
                (Rel::Eq, [-2, -2, 2, 0], 3),
                (Rel::Le, [-3, 1, 3, 0], 3),
            ],
            (Rel::Lt, [-2, 0, -2, 0], 4),
            Expected::One((0, &[8, 0, 8, -5, 2])),
        ),
        (
            &[
                (Rel::Le, [-1, 3, -2, 0], 2),
                (Rel::Le, [0, -2, -3, 0], 2),
                (Rel::Eq, [0, 3, 2, 0], 1),
                (Rel::Eq, [2, -1, -1, 0], -3),
                (Rel::Le, [0, 2, -3, 0], 0),
            ],
            (Rel::Lt, [-2, 0, -1, 0], 2),
            Expected::One((25, &[8, 0, -15, -21, 0])),
        ),
        (
            &[
                (Rel::Lt, [1, -2, -2, 0], -1),
                (Rel::Le, [2, 2, -2, 0], 1),
                (Rel::Le, [-1, -1, 3, 0], 2),
                (Rel::Lt, [-2, 2, -2, 0], -2),
            ],
            (Rel::Lt, [0, 2, 2, 0], 3),
            Expected::One((2, &[0, 3, 4, 2])),
        ),
    ];
    for (given, target, wanted) in cases {
        assert!(rt;
            answers(alloc, given, &target, &wanted) == Ok(true),
            "constant {}",
            target.2
        );
    }
}

#[test]
fn falsehood_is_answered(rt: HostRuntime) {
    let alloc = rt.alloc();
    let cases: [(&[Data], Expected); 10] = [
        // rows with a solution, and without
        (&[(Rel::Lt, [1, 0, 0, 0], 0)], Expected::NotEntailed),
        (
            &[(Rel::Lt, [1, -1, 0, 0], 0), (Rel::Lt, [-1, 1, 0, 0], 0)],
            Expected::One((0, &[1, 1])),
        ),
        (
            &[(Rel::Le, [1, -1, 0, 0], 0), (Rel::Le, [-1, 1, 0, 0], 0)],
            Expected::NotEntailed,
        ),
        // no rows
        (&[], Expected::NotEntailed),
        // equations
        (
            &[(Rel::Eq, [1, 0, 0, 0], 0), (Rel::Eq, [1, 0, 0, 0], 1)],
            Expected::One((0, &[-1, 1])),
        ),
        (
            &[
                (Rel::Eq, [1, -1, 0, 0], 0),
                (Rel::Eq, [0, 1, -1, 0], 0),
                (Rel::Eq, [1, 0, -1, 0], -2),
            ],
            Expected::One((0, &[1, 1, -1])),
        ),
        // three that are false together
        (
            &[
                (Rel::Le, [1, 1, 0, 0], -1),
                (Rel::Le, [-1, 0, 0, 0], 1),
                (Rel::Le, [0, -1, 0, 0], 1),
            ],
            Expected::One((0, &[1, 1, 1])),
        ),
        // a false row, a true row
        (&[(Rel::Le, [0, 0, 0, 0], 1)], Expected::One((0, &[1]))),
        (&[(Rel::Le, [0, 0, 0, 0], -1)], Expected::NotEntailed),
        // a coefficient leaves its range
        (
            &[
                (Rel::Le, [9_223_372_036_854_775_807, 0, 1, 0], 0),
                (Rel::Le, [-9_223_372_036_854_775_806, 1, 0, 0], 0),
            ],
            Expected::Fault(FindFault::Overflow),
        ),
    ];
    for (given, wanted) in cases {
        assert!(rt;
            answers_false(alloc, given, &wanted) == Ok(true),
            "{} rows",
            given.len()
        );
    }
}
