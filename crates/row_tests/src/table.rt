//! How the tables write rows, and what they want.

ghost use Rattle.std.specs.Prelude.{◌≡◌, ◌<◌, ◌≤◌, true, All};

use lin_row::{Rel, Row, RowFault};
use std::alloc::Global;

/// The greatest number of a row, the first past it, and half of that.
pub(crate) const LIMIT: i128 = 9_223_372_036_854_775_807;

pub(crate) const PAST: i128 = 9_223_372_036_854_775_808;

pub(crate) const HALF: i128 = 4_611_686_018_427_387_904;

/// 2^126.
pub(crate) const MIDDLE: i128 = 85_070_591_730_234_615_865_843_651_857_942_052_864;

/// A relation, the coefficients of the variables 1 to 4 and 9, and a constant.
pub(crate) type Written = (Rel, [i128; 5], i128);

/// The parts of a row.
pub(crate) type Parts = (Rel, &'static [(u32, i64)], i64);

pub(crate) fn row_of(alloc: Global, written: &Written) -> Result<Row, RowFault> {
    let (rel, c, constant) = *written;
    let pairs = [(1, c[0]), (2, c[1]), (3, c[2]), (4, c[3]), (9, c[4])];
    Row::make(alloc, rel, &pairs, constant)
}

/// Whether the row has the parts.
pub(crate) fn has(row: &Row, parts: &Parts) -> bool {
    row.rel() == parts.0 && row.pairs() == parts.1 && row.constant() == parts.2
}

/// Whether what was made is what is wanted.
pub(crate) fn is_wanted(made: Result<Row, RowFault>, wanted: &Result<Parts, RowFault>) -> bool {
    match (&made, wanted) {
        (Ok(row), Ok(parts)) => has(row, parts),
        (Err(fault), Err(other)) => *fault == *other,
        _ => false,
    }
}

/// Whether a table of so many numbers has one for each variable.
fn is_numbered(pairs: &[(u32, i64)], count: usize) -> bool
    ensures { result ≡ true → All (λ p. (0 < p.0) × (p.0 ≤ count)) pairs.now }
{
    for p in pairs {
        if p.0 == 0 || p.0 as usize > count {
            return false;
        }
    }
    true
}

/// The row under new numbers, of which there has to be one for each variable.
pub(crate) fn renamed(alloc: Global, row: &Row, numbers: &[u32]) -> Result<Row, RowFault> {
    if is_numbered(row.pairs(), numbers.len()) {
        row.rename(alloc, numbers)
    } else {
        Err(RowFault::NoMemory)
    }
}
