//! How many rows eliminations give, and which fault decides.

ghost use Rattle.std.specs.Prelude.{◌<◌};

use elim_rows::{ElimFault, eliminate, factors};
use lin_row::{Rel, Row, RowFault};
use std::alloc::Global;

/// How many lower bounds, the step between their constants, how many upper bounds, the first constant, and how many
/// rows their elimination gives. Each pair of bounds gives a row with the sum of their constants.
type Case = (i64, i64, i64, i64, Result<usize, ElimFault>);

const END: i64 = 9_223_372_036_854_775_807;

static CASES: [Case; 9] = [
    (1, 0, 127, 0, Ok(127)),
    (2, 64, 64, 0, Ok(128)),
    (3, 64, 43, 0, Err(ElimFault::TooMany)),
    (64, 64, 64, 0, Err(ElimFault::TooMany)),
    (64, 1, 64, 0, Ok(127)),
    (3, 64, 43, END - 170, Err(ElimFault::TooMany)),
    (3, 64, 43, END - 169, Err(ElimFault::Overflow)),
    (64, 1, 64, END - 126, Ok(127)),
    (64, 1, 64, END - 125, Err(ElimFault::Overflow)),
];

static FACTORS: [((i64, i64), (i64, i64)); 7] = [
    ((1, 1), (1, 1)),
    ((6, -4), (2, 3)),
    ((-4, 6), (3, 2)),
    ((-7, -7), (1, 1)),
    ((END, 1), (1, END)),
    ((-END, END - 1), (END - 1, END)),
    ((END, -END), (1, 1)),
];

fn push_bound(
    alloc: Global,
    rows: &mut Vec<Row>,
    first: (u32, i128),
    second: (u32, i128),
    constant: i128,
) -> Result<(), RowFault>
    requires { first.0 < second.0 }
{
    let row = Row::make(alloc, Rel::Le, &[first, second], constant)?;
    match rows.push(row) {
        Ok(()) => Ok(()),
        Err(_) => Err(RowFault::NoMemory),
    }
}

/// The lower bounds `V1 - V3 + first + step*i =< 0` and the upper bounds `V3 - V2 + j =< 0`.
fn bounds(alloc: Global, case: &Case) -> Result<Vec<Row>, RowFault> {
    let mut rows = Vec::new(alloc);
    let mut constant = case.3 as i128;
    for _ in 0..case.0 {
        push_bound(alloc, &mut rows, (1, 1), (3, -1), constant)?;
        constant = constant.wrapping_add(case.1 as i128);
    }
    for j in 0..case.2 {
        push_bound(alloc, &mut rows, (2, -1), (3, 1), j as i128)?;
    }
    Ok(rows)
}

fn is_given(alloc: Global, case: &Case) -> Result<bool, RowFault> {
    let rows = bounds(alloc, case)?;
    if rows.len() > 128 {
        return Ok(false);
    }
    match eliminate(alloc, rows.as_slice(), 3) {
        Ok(left) => Ok(case.4 == Ok(left.len())),
        Err(fault) => Ok(case.4 == Err(fault)),
    }
}

#[test]
fn counts(rt: HostRuntime) {
    for (at, case) in CASES.iter().enumerate() {
        assert!(rt; is_given(rt.alloc(), case) == Ok(true), "case {at}");
    }
}

#[test]
fn cancelling_factors(rt: HostRuntime) {
    for (at, case) in FACTORS.iter().enumerate() {
        let ((a, b), wanted) = *case;
        if a == 0 || b == 0 || a == i64::MIN || b == i64::MIN {
            continue;
        }
        assert!(rt; factors(a, b) == wanted, "case {at}");
    }
}
