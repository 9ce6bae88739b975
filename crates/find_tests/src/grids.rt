//! Bounds of one variable, each below and above it by a variable of its own: a turn makes a row of each pair.

use entail_find::{FindFault, Found, find, find_false};
use lin_row::{Rel, Row, RowFault};
use std::alloc::Global;

/// `V(first) < V(second)`, where first is the lesser variable or the coefficients change their signs.
fn less(alloc: Global, first: u32, second: u32) -> Result<Row, RowFault> {
    if first < second {
        Row::make(alloc, Rel::Lt, &[(first, 1), (second, -1)], 0)
    } else if second < first {
        Row::make(alloc, Rel::Lt, &[(second, -1), (first, 1)], 0)
    } else {
        Err(RowFault::Overflow)
    }
}

/// So many variables below V1, and so many above it.
fn grid(alloc: Global, size: u32) -> Result<Vec<Row>, RowFault> {
    let mut rows = Vec::new(alloc);
    for i in 0..size {
        rows.push(less(alloc, 2 + i % 64, 1)?)
            .map_err(|_| RowFault::NoMemory)?;
    }
    for i in 0..size {
        rows.push(less(alloc, 1, 100 + i % 64)?)
            .map_err(|_| RowFault::NoMemory)?;
    }
    Ok(rows)
}

/// What is answered.
#[derive(Clone, Copy, Debug, PartialEq, Eq)]
enum Answer {
    Shown,
    NotEntailed,
    Fault(FindFault),
}

fn answer_of(found: Result<Found, FindFault>) -> Answer {
    match found {
        Ok(Found::Shown(_)) => Answer::Shown,
        Ok(Found::NotEntailed) => Answer::NotEntailed,
        Err(fault) => Answer::Fault(fault),
    }
}

/// Whether the grid entails that a variable is less than another.
fn entails(alloc: Global, size: u32, first: u32, second: u32) -> Result<Answer, RowFault> {
    let rows = grid(alloc, size)?;
    let target = less(alloc, first, second)?;
    if rows.len() > 128 {
        return Err(RowFault::Overflow);
    }
    Ok(answer_of(find(alloc, &rows, &target)))
}

/// Whether the grid has no solution.
fn is_false(alloc: Global, size: u32) -> Result<Answer, RowFault> {
    let rows = grid(alloc, size)?;
    if rows.len() > 128 {
        return Err(RowFault::Overflow);
    }
    Ok(answer_of(find_false(alloc, &rows)))
}

#[test]
fn a_turn_leaves_at_most_1024_items(rt: HostRuntime) {
    let alloc = rt.alloc();
    // 32 times 32 pairs, and one more with the target's negation
    assert!(rt; is_false(alloc, 32) == Ok(Answer::NotEntailed));
    assert!(rt; is_false(alloc, 33) == Ok(Answer::Fault(FindFault::TooLong)));
    assert!(rt; entails(alloc, 31, 2, 100) == Ok(Answer::Shown));
    assert!(rt; entails(alloc, 31, 100, 2) == Ok(Answer::NotEntailed));
    assert!(rt; entails(alloc, 32, 2, 100) == Ok(Answer::Fault(FindFault::TooLong)));
}
