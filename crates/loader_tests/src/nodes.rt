//! A program whose clauses have together as many nodes as they may have, and one more.

use crate::formed::are_well_formed;
use clause_loader::{LoadFault, load};
use clause_store::{Limit, SourceClause, Tree};
use clp_model::{Name, Sort};
use sqlite_items::Items;
use std::alloc::{AllocError, Global};
use std::test::Fail;
use term_store::NoMemory;

/// A name applied to so many copies of a term.
fn repeated(alloc: Global, name: &str, tree: &Tree, count: u32) -> Result<Tree, AllocError> {
    let mut args = Items::new(alloc);
    for _ in 0..count {
        args.push(tree.copy(alloc)?)?;
    }
    Ok(Tree::App(Name::copy_of(alloc, name)?, args))
}

/// A clause with a head, and an equation of variable 1 if there is one.
fn clause(alloc: Global, head: Tree, image: Option<Tree>) -> Result<SourceClause, AllocError> {
    let mut equations = Items::new(alloc);
    let mut sorts = Items::new(alloc);
    if let Some(image) = image {
        equations.push((Tree::Var(1), image))?;
        sorts.push(Sort::Any)?;
    }
    Ok(SourceClause {
        head,
        equations,
        rows: Items::new(alloc),
        atoms: Items::new(alloc),
        sorts,
    })
}

/// A clause of size 4,096: one name applied to 63 terms of size 65.
fn large(alloc: Global) -> Result<SourceClause, AllocError> {
    let a = Tree::App(Name::copy_of(alloc, "a")?, Items::new(alloc));
    let image = repeated(alloc, "f", &a, 64)?;
    let head = repeated(alloc, "p", &Tree::Var(1), 63)?;
    clause(alloc, head, Some(image))
}

/// A clause of size 1.
fn small(alloc: Global) -> Result<SourceClause, AllocError> {
    let head = Tree::App(Name::copy_of(alloc, "p")?, Items::new(alloc));
    clause(alloc, head, None)
}

/// A clause whose equation nothing solves.
fn unsolved(alloc: Global) -> Result<SourceClause, AllocError> {
    let head = repeated(alloc, "p", &Tree::Var(1), 3)?;
    let image = repeated(alloc, "f", &Tree::Var(1), 1)?;
    clause(alloc, head, Some(image))
}

/// Clauses of size 4,096 that have 8,388,608 nodes together, a clause that nothing solves, and two of size 1.
fn program(alloc: Global) -> Result<Vec<SourceClause>, NoMemory> {
    let mut clauses = Vec::new(alloc);
    for _ in 0..2048 {
        clauses.push(large(alloc)?)?;
    }
    clauses.push(unsolved(alloc)?)?;
    clauses.push(small(alloc)?)?;
    clauses.push(small(alloc)?)?;
    Ok(clauses)
}

/// The fault of the program, if it has one.
fn fault_of(alloc: Global) -> Result<Option<LoadFault>, NoMemory> {
    let clauses = program(alloc)?;
    if clauses.len() > u32::MAX as usize {
        return Ok(None);
    }
    if !are_well_formed(clauses.as_slice()) {
        return Ok(None);
    }
    match load(alloc, clauses.as_slice()) {
        Ok(_) => Ok(None),
        Err(fault) => Ok(Some(fault)),
    }
}

/// The first 2,048 clauses are taken, and so is the next, which makes none; the first clause after that is refused.
#[test]
fn nodes_of_a_program(rt: HostRuntime) -> Result<(), Fail> {
    assert_eq!(rt;
        fault_of(rt.alloc())?,
        Some(LoadFault::TooLarge(2050, Limit::Nodes))
    );
    Ok(())
}
