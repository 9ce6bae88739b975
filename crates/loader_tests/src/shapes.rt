//! Source clauses as they stand in tables.

use clause_store::{ClauseFault, Row, SourceClause, Tree};
use clp_model::{Name, Rel, Sort};
use sqlite_items::Items;
use std::alloc::{AllocError, Global};
use term_store::NoMemory;

/// A term: a variable by its number, or a name applied to terms.
pub enum Shape {
    V(u32),
    App(&'static str, &'static [Shape]),
}

/// A relation, the coefficients of the variables 1 to 4, and a constant.
pub type WrittenRow = (Rel, [i128; 4], i128);

/// A clause: its head, equations, rows and body atoms, and the sorts of its variables.
pub type Written = (
    Shape,
    &'static [(Shape, Shape)],
    &'static [WrittenRow],
    &'static [Shape],
    &'static [Sort],
);

/// The tree of a term.
#[cycle(tree)]
pub fn tree(alloc: Global, shape: &Shape) -> Result<Tree, AllocError> {
    match shape {
        Shape::V(number) => Ok(Tree::Var(*number)),
        Shape::App(name, args) => {
            let args = match trees(alloc, args) {
                Ok(args) => args,
                Err(e) => return Err(e),
            };
            Ok(Tree::App(Name::copy_of(alloc, name)?, args))
        }
    }
}

/// The same of several terms, in order.
#[cycle(tree)]
pub fn trees(alloc: Global, shapes: &[Shape]) -> Result<Items<Tree>, AllocError> {
    let mut trees = Items::new(alloc);
    for shape in shapes {
        let tree = match tree(alloc, shape) {
            Ok(tree) => tree,
            Err(e) => return Err(e),
        };
        trees.push(tree)?;
    }
    Ok(trees)
}

fn equations(alloc: Global, sides: &[(Shape, Shape)]) -> Result<Items<(Tree, Tree)>, AllocError> {
    let mut equations = Items::new(alloc);
    for (left, right) in sides {
        equations.push((tree(alloc, left)?, tree(alloc, right)?))?;
    }
    Ok(equations)
}

fn rows(alloc: Global, written: &[WrittenRow]) -> Result<Items<Row>, ClauseFault> {
    let mut rows = Items::new(alloc);
    for (rel, c, constant) in written {
        let pairs = [(1, c[0]), (2, c[1]), (3, c[2]), (4, c[3])];
        rows.push(Row::make(alloc, *rel, &pairs, *constant)?)?;
    }
    Ok(rows)
}

/// The source clause of a table.
pub fn source(alloc: Global, written: &Written) -> Result<SourceClause, ClauseFault> {
    Ok(SourceClause {
        head: tree(alloc, &written.0)?,
        equations: equations(alloc, written.1)?,
        rows: rows(alloc, written.2)?,
        atoms: trees(alloc, written.3)?,
        sorts: Items::from_slice(alloc, written.4)?,
    })
}

/// Puts a clause last.
pub fn push_source(clauses: &mut Vec<SourceClause>, clause: SourceClause) -> Result<(), NoMemory> {
    clauses.push(clause)?;
    Ok(())
}

/// The source clauses of a program.
pub fn sources(alloc: Global, written: &[Written]) -> Result<Vec<SourceClause>, ClauseFault> {
    let mut clauses = Vec::new(alloc);
    for clause in written {
        push_source(&mut clauses, source(alloc, clause)?)?;
    }
    Ok(clauses)
}
