//! The questions: rows, and a row that may follow from them.

ghost use Rattle.std.specs.Prelude.{◌<◌, ◌≤◌};

use crate::asked::Family;
use crate::draws::Draws;
use lin_row::{Rel, Row, RowFault};
use std::alloc::Global;

const MAX_SIZE: u32 = 200;

/// Does the target follow from the rows?
#[derive(Drop)]
pub struct Question {
    pub rows: Vec<Row>,
    pub target: Row,
}

/// The question of the family in that size. Above `MAX_SIZE` there are too many rows for the finder anyway.
pub fn question_of(alloc: Global, family: Family, size: u32) -> Result<Question, RowFault> {
    let size = size.min(MAX_SIZE);
    match family {
        Family::Chain => chain(alloc, size),
        Family::Between => between(alloc, size),
        Family::Random => random(alloc, size),
    }
}

/// `a*V + b*W` and the constant compared with 0.
fn pair(
    alloc: Global,
    rel: Rel,
    first: (u32, i128),
    second: (u32, i128),
    constant: i128,
) -> Result<Row, RowFault>
    requires { first.0 < second.0 }
{
    Row::make(alloc, rel, &[first, second], constant)
}

fn push(rows: &mut Vec<Row>, row: Row) -> Result<(), RowFault> {
    match rows.push(row) {
        Ok(()) => Ok(()),
        Err(_) => Err(RowFault::NoMemory),
    }
}

/// From `V1 < V2`, .., `Vm < Vn`, where m is n - 1, follows `V1 < Vn`.
fn chain(alloc: Global, n: u32) -> Result<Question, RowFault>
    requires { n ≤ 200 }
{
    let mut rows = Vec::new(alloc);
    for i in 1..n {
        push(&mut rows, pair(alloc, Rel::Lt, (i, 1), (i + 1, -1), 0)?)?;
    }
    let target = pair(alloc, Rel::Lt, (1, 1), (n.max(2), -1), 0)?;
    Ok(Question { rows, target })
}

/// From n - 1 lower bounds of V1 and n upper bounds follows that it is less than the first of these and 1. With the
/// target's negation there are n bounds on each side.
fn between(alloc: Global, n: u32) -> Result<Question, RowFault>
    requires { n ≤ 200 }
{
    let mut rows = Vec::new(alloc);
    for i in 1..n {
        push(&mut rows, pair(alloc, Rel::Le, (1, -1), (i + 1, 1), 0)?)?;
    }
    for i in 0..n {
        push(&mut rows, pair(alloc, Rel::Le, (1, 1), (i + n + 2, -1), 0)?)?;
    }
    let target = pair(alloc, Rel::Lt, (1, 1), (n + 2, -1), -1)?;
    Ok(Question { rows, target })
}

/// Row and target are drawn: coefficients of eight variables and constants from -9 to 9, `<` or `=<`.
fn random(alloc: Global, n: u32) -> Result<Question, RowFault> {
    let mut draws = Draws::new(7);
    let mut rows = Vec::new(alloc);
    for _ in 0..n {
        push(&mut rows, drawn(alloc, &mut draws)?)?;
    }
    let target = drawn(alloc, &mut draws)?;
    Ok(Question { rows, target })
}

fn drawn(alloc: Global, draws: &mut Draws) -> Result<Row, RowFault> {
    let pairs = [
        (1, draws.digit()),
        (2, draws.digit()),
        (3, draws.digit()),
        (4, draws.digit()),
        (5, draws.digit()),
        (6, draws.digit()),
        (7, draws.digit()),
        (8, draws.digit()),
    ];
    let rel = if draws.digit() < 0 { Rel::Lt } else { Rel::Le };
    Row::make(alloc, rel, &pairs, draws.digit())
}
