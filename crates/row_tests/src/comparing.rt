//! The order of rows, equality and hashes.

use crate::table::{LIMIT, Written, row_of};
use lin_row::{Rel, Row, RowFault};
use std::alloc::Global;
use std::hash::{DefaultHasher, Hash, Hasher};

/// Rows in order: by their pairs, then by their constants, then by their relations.
static ORDERED: [Written; 17] = [
    (Rel::Lt, [0, 0, 0, 0, 0], -1),
    (Rel::Eq, [0, 0, 0, 0, 0], 0),
    (Rel::Le, [0, 0, 0, 0, 0], 0),
    (Rel::Lt, [0, 0, 0, 0, 0], 0),
    (Rel::Eq, [0, 0, 0, 0, 0], 1),
    (Rel::Le, [-LIMIT, 0, 0, 0, 0], 1),
    (Rel::Lt, [-1, 0, 0, 0, 0], -LIMIT),
    (Rel::Le, [-1, 0, 0, 0, 0], 0),
    (Rel::Lt, [-1, 0, 0, 0, 0], 0),
    (Rel::Eq, [1, 0, 0, 0, 0], -5),
    (Rel::Eq, [1, 0, 0, 0, 0], 5),
    (Rel::Le, [1, -1, 0, 0, 0], 0),
    (Rel::Le, [1, 1, 1, 1, 0], 0),
    (Rel::Le, [1, 1, 1, 1, 1], 0),
    (Rel::Lt, [1, 0, 1, 0, 0], -9),
    (Rel::Lt, [2, 0, 0, 0, 0], -9),
    (Rel::Lt, [0, 0, 0, 0, -9], 1),
];

fn rows_of(alloc: Global, written: &[Written]) -> Result<Vec<Row>, RowFault> {
    let mut rows = Vec::new(alloc);
    for one in written {
        let row = row_of(alloc, one)?;
        match rows.push(row) {
            Ok(()) => {}
            Err(_) => return Err(RowFault::NoMemory),
        }
    }
    Ok(rows)
}

fn hash_of(row: &Row) -> u64 {
    let mut state = DefaultHasher::new();
    row.hash(&mut state);
    state.finish()
}

/// Whether a row compares with each row as its place does.
fn is_placed(rows: &[Row], at: usize, row: &Row) -> bool {
    for (other_at, other) in rows.iter().enumerate() {
        if row.cmp(other) != at.cmp(&other_at) || (*row == *other) != (at == other_at) {
            return false;
        }
    }
    true
}

/// Whether the row equals its copy, and hashes as it does.
fn is_copied(alloc: Global, row: &Row) -> Result<bool, RowFault> {
    let copy = row.copy(alloc)?;
    Ok(copy == *row && hash_of(&copy) == hash_of(row))
}

fn are_ordered(alloc: Global) -> Result<bool, RowFault> {
    let rows = rows_of(alloc, &ORDERED)?;
    for (at, row) in rows.iter().enumerate() {
        if !is_placed(rows.as_slice(), at, row) || !is_copied(alloc, row)? {
            return Ok(false);
        }
    }
    Ok(true)
}

#[test]
fn order(rt: HostRuntime) {
    assert!(rt; are_ordered(rt.alloc()) == Ok(true));
}
