//! The limits of a clause, each at its last value and past it, and which fault comes first.

use crate::loads::gives_fault;
use crate::shapes::push_source;
use clause_loader::LoadFault;
use clause_store::{ClauseFault, Limit, Row, SourceClause, Tree};
use clp_model::{Name, Rel, Sort};
use sqlite_items::Items;
use std::alloc::{AllocError, Global};
use std::cmp::max;
use std::test::Fail;

/// How many arguments `a` the head has, how deep a term is that follows them, how many variables follow, how many
/// atoms `q` there are, and how many rows `V1 - i =< 0`.
type Counts = [u32; 5];

/// Counts, and the limit that the clause is past.
type Case = (Counts, Option<Limit>);

static CASES: [Case; 20] = [
    ([0, 0, 0, 0, 0], None),
    // the nodes of the head, of all atoms, and of a row with its coefficient
    ([4095, 0, 0, 0, 0], None),
    ([4096, 0, 0, 0, 0], Some(Limit::Shape)),
    ([4031, 0, 0, 64, 0], None),
    ([4032, 0, 0, 64, 0], Some(Limit::Shape)),
    ([4093, 0, 0, 0, 1], None),
    ([4094, 0, 0, 0, 1], Some(Limit::Shape)),
    // the depth of a term
    ([0, 255, 0, 0, 0], None),
    ([0, 256, 0, 0, 0], Some(Limit::Shape)),
    // body atoms
    ([0, 0, 0, 64, 0], None),
    ([0, 0, 0, 65, 0], Some(Limit::Atoms)),
    // variables
    ([0, 0, 256, 0, 0], None),
    ([0, 0, 257, 0, 0], Some(Limit::Variables)),
    // rows
    ([0, 0, 0, 0, 128], None),
    ([0, 0, 0, 0, 129], Some(Limit::Rows)),
    // the first limit is told
    ([4096, 0, 257, 65, 129], Some(Limit::Shape)),
    ([0, 256, 257, 65, 129], Some(Limit::Shape)),
    ([0, 0, 257, 65, 129], Some(Limit::Atoms)),
    ([0, 0, 257, 64, 129], Some(Limit::Variables)),
    ([3519, 64, 256, 0, 128], None),
];

/// A name without arguments.
fn constant(alloc: Global, name: &str) -> Result<Tree, AllocError> {
    Ok(Tree::App(Name::copy_of(alloc, name)?, Items::new(alloc)))
}

/// A term `f(f(.. a))` of this depth.
fn nested(alloc: Global, depth: u32) -> Result<Tree, AllocError> {
    let mut tree = constant(alloc, "a")?;
    for _ in 1..depth {
        let mut args = Items::new(alloc);
        args.push(tree)?;
        tree = Tree::App(Name::copy_of(alloc, "f")?, args);
    }
    Ok(tree)
}

/// A term of name `p` with so many arguments `a`, a nested one, and so many variables.
fn head(alloc: Global, counts: &Counts) -> Result<Tree, AllocError> {
    let mut args = Items::new(alloc);
    for _ in 0..counts[0] {
        args.push(constant(alloc, "a")?)?;
    }
    if counts[1] > 0 {
        args.push(nested(alloc, counts[1])?)?;
    }
    for number in 0..counts[2] {
        args.push(Tree::Var(number + 1))?;
    }
    Ok(Tree::App(Name::copy_of(alloc, "p")?, args))
}

/// So many atoms `q`.
fn atoms(alloc: Global, count: u32) -> Result<Items<Tree>, AllocError> {
    let mut atoms = Items::new(alloc);
    for _ in 0..count {
        atoms.push(constant(alloc, "q")?)?;
    }
    Ok(atoms)
}

/// So many different rows of variable 1.
fn rows(alloc: Global, count: u32) -> Result<Items<Row>, ClauseFault> {
    let mut rows = Items::new(alloc);
    for i in 0..count {
        let constant = -(i as i128);
        rows.push(Row::make(alloc, Rel::Le, &[(1, 1)], constant)?)?;
    }
    Ok(rows)
}

/// So many variables that are Num.
fn nums(alloc: Global, count: u32) -> Result<Items<Sort>, AllocError> {
    let mut sorts = Items::new(alloc);
    for _ in 0..count {
        sorts.push(Sort::Num)?;
    }
    Ok(sorts)
}

/// A clause of these counts, which has two variables at least.
fn clause(alloc: Global, counts: &Counts) -> Result<SourceClause, ClauseFault> {
    Ok(SourceClause {
        head: head(alloc, counts)?,
        equations: Items::new(alloc),
        rows: rows(alloc, counts[4])?,
        atoms: atoms(alloc, counts[3])?,
        sorts: nums(alloc, max(counts[2], 2))?,
    })
}

/// Whether the clause of these counts is past this limit, or past none.
fn is_past(alloc: Global, case: &Case) -> Result<bool, ClauseFault> {
    let mut source = Vec::new(alloc);
    push_source(&mut source, clause(alloc, &case.0)?)?;
    let fault = match case.1 {
        Some(limit) => Some(LoadFault::TooLarge(1, limit)),
        None => None,
    };
    gives_fault(alloc, source.as_slice(), fault)
}

/// How large a clause is whose two variables are made one, so that a coefficient of a row is 2^63 or half of it; the
/// nodes and the depth of a side of an equation that nothing solves, if there is one; and the fault.
type Order = (Counts, bool, Option<(u32, u32)>, Option<LoadFault>);

static ORDER: [Order; 13] = [
    ([0, 0, 0, 0, 0], false, None, None),
    ([0, 0, 0, 0, 0], true, None, Some(LoadFault::Overflow(1))),
    // a row out of range comes before each limit of the clause
    (
        [4096, 0, 0, 0, 0],
        false,
        None,
        Some(LoadFault::TooLarge(1, Limit::Shape)),
    ),
    ([4096, 0, 0, 0, 0], true, None, Some(LoadFault::Overflow(1))),
    ([0, 256, 0, 0, 0], true, None, Some(LoadFault::Overflow(1))),
    (
        [0, 0, 257, 65, 129],
        true,
        None,
        Some(LoadFault::Overflow(1)),
    ),
    // nothing solves the equations, whatever the rest is
    ([4096, 0, 257, 65, 129], true, Some((1, 1)), None),
    // the largest side that is solved, by nodes and by depth
    ([0, 0, 0, 0, 0], true, Some((4096, 1)), None),
    ([0, 0, 0, 0, 0], true, Some((1, 256)), None),
    // a side that is larger, whatever solves the equations and whatever the rest is
    (
        [0, 0, 0, 0, 0],
        true,
        Some((4097, 1)),
        Some(LoadFault::TooLarge(1, Limit::Shape)),
    ),
    (
        [0, 0, 0, 0, 0],
        true,
        Some((1, 257)),
        Some(LoadFault::TooLarge(1, Limit::Shape)),
    ),
    (
        [0, 0, 0, 65, 0],
        false,
        Some((1, 257)),
        Some(LoadFault::TooLarge(1, Limit::Shape)),
    ),
    (
        [4096, 256, 257, 65, 129],
        true,
        Some((4097, 257)),
        Some(LoadFault::TooLarge(1, Limit::Shape)),
    ),
];

/// Makes the first two variables one, so that this row's coefficients are added.
fn join_variables(
    alloc: Global,
    source: &mut SourceClause,
    is_large: bool,
) -> Result<(), ClauseFault> {
    let half = if is_large {
        4_611_686_018_427_387_904
    } else {
        4_611_686_018_427_387_903
    };
    source.equations.push((Tree::Var(1), Tree::Var(2)))?;
    source
        .rows
        .push(Row::make(alloc, Rel::Lt, &[(1, half), (2, half)], 1)?)?;
    Ok(())
}

/// Adds an equation of `b` and a term with so many nodes more than its depth.
fn add_side(alloc: Global, source: &mut SourceClause, side: (u32, u32)) -> Result<(), ClauseFault> {
    let (nodes, depth) = side;
    let tree = if depth > 1 {
        nested(alloc, depth)?
    } else {
        head(alloc, &[nodes.saturating_sub(1), 0, 0, 0, 0])?
    };
    source.equations.push((tree, constant(alloc, "b")?))?;
    Ok(())
}

/// Whether the clause of a case has this fault, or none.
fn is_first(alloc: Global, case: &Order) -> Result<bool, ClauseFault> {
    let mut source = clause(alloc, &case.0)?;
    join_variables(alloc, &mut source, case.1)?;
    if let Some(side) = case.2 {
        add_side(alloc, &mut source, side)?;
    }
    let mut sources = Vec::new(alloc);
    push_source(&mut sources, source)?;
    gives_fault(alloc, sources.as_slice(), case.3)
}

#[test]
fn limits_of_a_clause(rt: HostRuntime) -> Result<(), Fail> {
    for (number, case) in CASES.iter().enumerate() {
        assert!(rt; is_past(rt.alloc(), case)?, "limit {number}");
    }
    for (number, case) in ORDER.iter().enumerate() {
        assert!(rt; is_first(rt.alloc(), case)?, "order {number}");
    }
    Ok(())
}
