//! A row of 300 coefficients.

use crate::table::renamed;
use lin_row::{Rel, Row, RowFault};
use std::alloc::Global;

const LENGTH: u32 = 300;

/// The sum of variable times number for the numbers from 1 on, with the constant 1.
fn long(alloc: Global) -> Result<Row, RowFault> {
    let mut row = Row::make(alloc, Rel::Le, &[], 1)?;
    for variable in 1..LENGTH + 1 {
        let one = Row::make(alloc, Rel::Le, &[(variable, 1)], 0)?;
        row = row.combine(alloc, Rel::Le, 1, variable as i64, &one)?;
    }
    Ok(row)
}

/// Whether the coefficients are the variables' numbers.
fn is_long(row: &Row) -> bool {
    for (at, p) in row.pairs().iter().enumerate() {
        if p.0 as usize != at + 1 || p.1 != p.0 as i64 {
            return false;
        }
    }
    row.pairs().len() == LENGTH as usize && row.constant() == 1
}

/// The new numbers in which each variable changes places with the one as far from the other end.
fn backwards(alloc: Global) -> Result<Vec<u32>, RowFault> {
    let mut numbers = Vec::new(alloc);
    for variable in 0..LENGTH {
        match numbers.push(LENGTH - variable) {
            Ok(()) => {}
            Err(_) => return Err(RowFault::NoMemory),
        }
    }
    Ok(numbers)
}

fn turned(row: Row) -> Row {
    match row.rel() {
        Rel::Eq => row,
        Rel::Le | Rel::Lt => row.negate(),
    }
}

fn is_kept(alloc: Global) -> Result<bool, RowFault> {
    let row = long(alloc)?;
    let numbers = backwards(alloc)?;
    let other = renamed(alloc, &row, numbers.as_slice())?;
    let back = renamed(alloc, &other, numbers.as_slice())?;
    let none = row.combine(alloc, Rel::Lt, -1, 1, &back)?;
    let same = turned(turned(row.copy(alloc)?));
    Ok(
        is_long(&row)
            && other.coefficient(1) == 300
            && back == row
            && same == row
            && none.pairs().is_empty(),
    )
}

#[test]
fn long_rows(rt: HostRuntime) {
    assert!(rt; is_kept(rt.alloc()) == Ok(true));
}
