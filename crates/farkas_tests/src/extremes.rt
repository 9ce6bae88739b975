//! The greatest coefficients and multipliers over 128 rows: the sums are exact.

use clp_model::Rel;
use farkas_check::{Cert, CheckFault, Part, shown, shown_false};
use lin_row::{Row, RowFault};
use std::alloc::Global;

/// The greatest magnitude of a coefficient, the one below it, and the greatest of a multiplier.
const MAX: i64 = 9_223_372_036_854_775_807;

const NEXT: i64 = 9_223_372_036_854_775_806;

const MOST: i64 = 72_057_594_037_927_935;

fn row(alloc: Global, coefficient: i64, constant: i64) -> Result<Row, RowFault> {
    Row::make(
        alloc,
        Rel::Le,
        &[(1, coefficient as i128)],
        constant as i128,
    )
}

/// How many rows with the first coefficient and constant, and then with the second.
type Rows = (usize, i64, i64, usize, i64, i64);

fn rows(alloc: Global, data: &Rows) -> Result<Vec<Row>, RowFault> {
    let (firsts, coefficient, constant, seconds, other, last) = *data;
    let mut made = Vec::new(alloc);
    for _ in 0..firsts {
        made.push(row(alloc, coefficient, constant)?)
            .map_err(|_| RowFault::NoMemory)?;
    }
    for _ in 0..seconds {
        made.push(row(alloc, other, last)?)
            .map_err(|_| RowFault::NoMemory)?;
    }
    Ok(made)
}

/// The greatest multiplier for each of so many rows, and k.
fn part(alloc: Global, k: i64, count: usize) -> Result<Part, RowFault> {
    let mut m = Vec::new(alloc);
    for _ in 0..count {
        m.push(MOST).map_err(|_| RowFault::NoMemory)?;
    }
    Part::make(k, m).map_err(|_| RowFault::Overflow)
}

fn false_answer(alloc: Global, data: &Rows) -> Result<Result<(), CheckFault>, RowFault> {
    let rows = rows(alloc, data)?;
    if rows.len() > 128 {
        return Err(RowFault::Overflow);
    }
    Ok(shown_false(&rows, &part(alloc, 0, rows.len())?))
}

/// Whether the rows show `coefficient * V1 + constant =< 0`, each with the greatest multiplier.
fn shown_answer(
    alloc: Global,
    data: &Rows,
    coefficient: i64,
    constant: i64,
) -> Result<Result<(), CheckFault>, RowFault> {
    let rows = rows(alloc, data)?;
    if rows.len() > 128 {
        return Err(RowFault::Overflow);
    }
    let cert = Cert::One(part(alloc, MOST, rows.len())?);
    Ok(shown(&rows, &row(alloc, coefficient, constant)?, &cert))
}

#[test]
fn sums_of_128_rows_are_exact(rt: HostRuntime) {
    let alloc = rt.alloc();
    let falsehoods: [(Rows, Result<(), CheckFault>); 6] = [
        ((64, MAX, NEXT, 64, -MAX, NEXT), Ok(())),
        (
            (64, MAX, -NEXT, 64, -MAX, -NEXT),
            Err(CheckFault::WrongSign),
        ),
        ((64, MAX, NEXT, 64, -MAX, -NEXT), Err(CheckFault::WrongSign)),
        ((128, MAX, NEXT, 0, 0, 0), Err(CheckFault::NotConstant)),
        ((128, -MAX, NEXT, 0, 0, 0), Err(CheckFault::NotConstant)),
        (
            (64, MAX, NEXT, 64, -NEXT, MAX),
            Err(CheckFault::NotConstant),
        ),
    ];
    for (data, wanted) in falsehoods {
        assert!(rt;
            false_answer(alloc, &data) == Ok(wanted),
            "{} and {} rows",
            data.0,
            data.3
        );
    }
    let entailed: [(Rows, i64, i64, Result<(), CheckFault>); 5] = [
        ((64, MAX, NEXT, 63, -MAX, -NEXT), MAX, NEXT, Ok(())),
        ((64, MAX, NEXT, 63, -MAX, NEXT), MAX, -NEXT, Ok(())),
        (
            (63, MAX, -NEXT, 64, -MAX, -NEXT),
            -MAX,
            NEXT,
            Err(CheckFault::WrongSign),
        ),
        (
            (64, MAX, NEXT, 64, -MAX, NEXT),
            MAX,
            NEXT,
            Err(CheckFault::NotConstant),
        ),
        (
            (128, MAX, NEXT, 0, 0, 0),
            MAX,
            NEXT,
            Err(CheckFault::NotConstant),
        ),
    ];
    for (data, coefficient, constant, wanted) in entailed {
        let answered = shown_answer(alloc, &data, coefficient, constant);
        assert!(rt; answered == Ok(wanted), "{} and {} rows", data.0, data.3);
    }
}
