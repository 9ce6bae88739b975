//! Each fault, the first of two, strictness, equations, and worked certificates. The expected answers were worked
//! out by hand.

use clp_model::Rel;
use farkas_check::{Cert, CheckFault, Part, shown, shown_false};
use lin_row::{Row, RowFault};
use std::alloc::Global;

/// A row over V1, V2 and V3: its relation, their coefficients, and its constant.
type Data = (Rel, i64, i64, i64, i64);

/// A multiplier for the target, and one for each row.
type Weights = (i64, &'static [i64]);

fn row(alloc: Global, data: &Data) -> Result<Row, RowFault> {
    let (rel, a, b, c, constant) = *data;
    Row::make(
        alloc,
        rel,
        &[(1, a as i128), (2, b as i128), (3, c as i128)],
        constant as i128,
    )
}

fn rows(alloc: Global, data: &[Data]) -> Result<Vec<Row>, RowFault> {
    let mut made = Vec::new(alloc);
    for one in data {
        made.push(row(alloc, one)?).map_err(|_| RowFault::NoMemory)?;
    }
    Ok(made)
}

fn part(alloc: Global, weights: &Weights) -> Result<Part, RowFault> {
    let m = Vec::from_slice(alloc, weights.1).map_err(|_| RowFault::NoMemory)?;
    Part::make(weights.0, m).map_err(|_| RowFault::Overflow)
}

/// What the check of a certificate answers.
fn answer(
    alloc: Global,
    given: &[Data],
    target: &Data,
    cert: &Cert,
) -> Result<Result<(), CheckFault>, RowFault> {
    let rows = rows(alloc, given)?;
    if rows.len() > 128 {
        return Err(RowFault::Overflow);
    }
    Ok(shown(&rows, &row(alloc, target)?, cert))
}

fn one_answer(
    alloc: Global,
    given: &[Data],
    target: &Data,
    weights: &Weights,
) -> Result<Result<(), CheckFault>, RowFault> {
    answer(alloc, given, target, &Cert::One(part(alloc, weights)?))
}

fn two_answer(
    alloc: Global,
    given: &[Data],
    target: &Data,
    first: &Weights,
    second: &Weights,
) -> Result<Result<(), CheckFault>, RowFault> {
    let cert = Cert::Two(part(alloc, first)?, part(alloc, second)?);
    answer(alloc, given, target, &cert)
}

fn false_answer(
    alloc: Global,
    given: &[Data],
    weights: &Weights,
) -> Result<Result<(), CheckFault>, RowFault> {
    let rows = rows(alloc, given)?;
    if rows.len() > 128 {
        return Err(RowFault::Overflow);
    }
    Ok(shown_false(&rows, &part(alloc, weights)?))
}

/// `V1 < 0`, `V1 - V2 - 1 = 0`.
static CHAIN: [Data; 2] = [(Rel::Lt, 1, 0, 0, 0), (Rel::Eq, 1, -1, 0, -1)];
/// `V1 - V2 =< 0`, `V2 - V3 =< 0`.
static WEAK: [Data; 2] = [(Rel::Le, 1, -1, 0, 0), (Rel::Le, 0, 1, -1, 0)];
/// `V1 - V2 < 0`, `V2 - V1 < 0`.
static STRICT: [Data; 2] = [(Rel::Lt, 1, -1, 0, 0), (Rel::Lt, -1, 1, 0, 0)];
/// `V1 - V2 =< 0`, `V2 - V1 =< 0`.
static BOTH: [Data; 2] = [(Rel::Le, 1, -1, 0, 0), (Rel::Le, -1, 1, 0, 0)];
/// `V2 < 0`.
static BELOW: Data = (Rel::Lt, 0, 1, 0, 0);
/// `V1 - V3 =< 0`, `V1 - V3 < 0`.
static ENDS: Data = (Rel::Le, 1, 0, -1, 0);

static STRICT_ENDS: Data = (Rel::Lt, 1, 0, -1, 0);
/// `V1 - V2 = 0`.
static EQUAL: Data = (Rel::Eq, 1, -1, 0, 0);

#[test]
fn one_part_shows_an_inequality(rt: HostRuntime) {
    let alloc = rt.alloc();
    let cases: [(&[Data], Data, Weights, Result<(), CheckFault>); 24] = [
        (&CHAIN, BELOW, (1, &[1, -1]), Ok(())),
        (&CHAIN, BELOW, (2, &[2, -2]), Ok(())),
        (&CHAIN, BELOW, (1, &[1, 1]), Err(CheckFault::NotConstant)),
        (&WEAK, ENDS, (1, &[1, 1]), Ok(())),
        (&WEAK, STRICT_ENDS, (1, &[1, 1]), Err(CheckFault::WrongSign)),
        (
            &[(Rel::Lt, 1, -1, 0, 0), (Rel::Le, 0, 1, -1, 0)],
            STRICT_ENDS,
            (1, &[1, 1]),
            Ok(()),
        ),
        (
            &[(Rel::Le, 1, 0, 0, 1)],
            (Rel::Lt, 1, 0, 0, 0),
            (1, &[1]),
            Ok(()),
        ),
        (
            &[(Rel::Le, -1, 0, 0, 3)],
            (Rel::Le, -1, 0, 0, 1),
            (1, &[1]),
            Ok(()),
        ),
        (
            &[(Rel::Le, -1, 0, 0, 1)],
            (Rel::Le, -1, 0, 0, 3),
            (1, &[1]),
            Err(CheckFault::WrongSign),
        ),
        (
            &[],
            (Rel::Lt, 0, -1, 0, 3),
            (1, &[]),
            Err(CheckFault::NotConstant),
        ),
        (&[], (Rel::Le, 0, 0, 0, -1), (1, &[]), Ok(())),
        (&[], (Rel::Le, 0, 0, 0, 0), (1, &[]), Ok(())),
        (
            &[],
            (Rel::Lt, 0, 0, 0, 0),
            (1, &[]),
            Err(CheckFault::WrongSign),
        ),
        (
            &[],
            (Rel::Le, 0, 0, 0, 0),
            (0, &[]),
            Err(CheckFault::WrongSign),
        ),
        (&STRICT, BELOW, (0, &[1, 1]), Ok(())),
        (&STRICT, ENDS, (0, &[1, 1]), Ok(())),
        (&STRICT, ENDS, (0, &[0, 0]), Err(CheckFault::WrongSign)),
        (&BOTH, ENDS, (0, &[1, 1]), Err(CheckFault::WrongSign)),
        (&WEAK, EQUAL, (-1, &[-1]), Err(CheckFault::Form)),
        (&WEAK, ENDS, (-1, &[-1]), Err(CheckFault::Count)),
        (&WEAK, ENDS, (1, &[1, 1, 0]), Err(CheckFault::Count)),
        (&WEAK, ENDS, (-1, &[1, 1]), Err(CheckFault::Negative)),
        (&WEAK, ENDS, (1, &[1, -1]), Err(CheckFault::Negative)),
        (
            &[(Rel::Le, 1, 0, 0, 5)],
            (Rel::Lt, 0, 1, 0, 9),
            (1, &[1]),
            Err(CheckFault::NotConstant),
        ),
    ];
    for (given, target, weights, wanted) in cases {
        let answered = one_answer(alloc, given, &target, &weights);
        assert!(rt; answered == Ok(wanted), "k is {}", weights.0);
    }
}

#[test]
fn two_parts_show_an_equation(rt: HostRuntime) {
    let alloc = rt.alloc();
    let equation: [Data; 2] = [(Rel::Le, 3, 1, 0, 1), (Rel::Eq, 1, -1, 0, 0)];
    let cases: [(&[Data], Data, Weights, Weights, Result<(), CheckFault>); 12] = [
        (&equation, EQUAL, (1, &[0, 1]), (1, &[0, -1]), Ok(())),
        (&BOTH, EQUAL, (1, &[1, 0]), (1, &[0, 1]), Ok(())),
        (&STRICT, EQUAL, (1, &[1, 0]), (1, &[0, 1]), Ok(())),
        (
            &equation,
            ENDS,
            (1, &[0, 1]),
            (1, &[0, -1]),
            Err(CheckFault::Form),
        ),
        (
            &equation,
            EQUAL,
            (1, &[0]),
            (1, &[0, -1]),
            Err(CheckFault::Count),
        ),
        (
            &equation,
            EQUAL,
            (1, &[0, 1]),
            (1, &[]),
            Err(CheckFault::Count),
        ),
        (
            &equation,
            EQUAL,
            (1, &[0, 1]),
            (-1, &[0, -1]),
            Err(CheckFault::Negative),
        ),
        (
            &equation,
            EQUAL,
            (1, &[0, 1]),
            (1, &[-1, -1]),
            Err(CheckFault::Negative),
        ),
        (
            &equation,
            EQUAL,
            (1, &[0, 1]),
            (1, &[0, 1]),
            Err(CheckFault::NotConstant),
        ),
        (
            &equation,
            EQUAL,
            (1, &[0, -1]),
            (1, &[]),
            Err(CheckFault::NotConstant),
        ),
        (
            &[(Rel::Eq, 1, -1, 0, 1)],
            EQUAL,
            (1, &[1]),
            (1, &[-1]),
            Err(CheckFault::WrongSign),
        ),
        (
            &[(Rel::Eq, 1, -1, 0, -1)],
            EQUAL,
            (1, &[1]),
            (-1, &[]),
            Err(CheckFault::WrongSign),
        ),
    ];
    for (given, target, first, second, wanted) in cases {
        let answered = two_answer(alloc, given, &target, &first, &second);
        assert!(rt; answered == Ok(wanted), "k is {} and {}", first.0, second.0);
    }
}

#[test]
fn a_part_shows_rows_false(rt: HostRuntime) {
    let alloc = rt.alloc();
    let cases: [(&[Data], Weights, Result<(), CheckFault>); 14] = [
        (&STRICT, (0, &[1, 1]), Ok(())),
        (&BOTH, (0, &[1, 1]), Err(CheckFault::WrongSign)),
        (
            &[(Rel::Lt, 1, -1, 0, 0), (Rel::Le, -1, 1, 0, 0)],
            (0, &[3, 3]),
            Ok(()),
        ),
        (
            &[(Rel::Lt, 1, 0, 0, 0), (Rel::Eq, 1, 0, 0, 0)],
            (0, &[1, -1]),
            Ok(()),
        ),
        (&[(Rel::Eq, 0, 0, 0, -1)], (0, &[-1]), Ok(())),
        (
            &[(Rel::Eq, 0, 0, 0, -1)],
            (0, &[1]),
            Err(CheckFault::WrongSign),
        ),
        (&[(Rel::Lt, 0, 0, 0, 0)], (0, &[1]), Ok(())),
        (
            &[(Rel::Lt, 0, 0, 0, 0)],
            (0, &[0]),
            Err(CheckFault::WrongSign),
        ),
        (&[], (0, &[]), Err(CheckFault::WrongSign)),
        (&STRICT, (1, &[]), Err(CheckFault::Form)),
        (&STRICT, (-1, &[1, 1]), Err(CheckFault::Form)),
        (&STRICT, (0, &[-1]), Err(CheckFault::Count)),
        (&STRICT, (0, &[2, -1]), Err(CheckFault::Negative)),
        (&STRICT, (0, &[2, 1]), Err(CheckFault::NotConstant)),
    ];
    for (given, weights, wanted) in cases {
        assert!(rt;
            false_answer(alloc, given, &weights) == Ok(wanted),
            "k is {}",
            weights.0
        );
    }
}
