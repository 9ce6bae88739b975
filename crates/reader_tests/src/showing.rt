//! Source clauses as short texts: the head, then equations, rows in braces and atoms, and a letter for each variable's
//! sort. Names stand as they are, lists as their cells.

use clause_printer::print_row;
use clause_store::SourceClause;
use clp_model::{Sort, Tree};
use lin_row::Row;
use std::alloc::Global;
use term_store::NoMemory;

fn show_tree(into: &mut String, tree: &Tree) -> Result<(), NoMemory> {
    match tree {
        Tree::Var(number) => {
            write!(into, "V{number}")?;
        }
        Tree::App(name, args) => {
            into.push_str(name.as_str())?;
            for (at, arg) in args.as_slice().iter().enumerate() {
                into.push_str(if at == 0 { "(" } else { "," })?;
                show_tree(into, arg)?;
            }
            if !args.is_empty() {
                into.push_str(")")?;
            }
        }
    }
    Ok(())
}

/// What stands before a goal: the first follows the head.
fn show_mark(into: &mut String, first: &mut bool) -> Result<(), NoMemory> {
    into.push_str(if *first { " :- " } else { ", " })?;
    *first = false;
    Ok(())
}

fn show_row(into: &mut String, row: &Row) -> Result<(), NoMemory> {
    into.push_str("{")?;
    print_row(row, into)?;
    into.push_str("}")?;
    Ok(())
}

fn show_sorts(into: &mut String, sorts: &[Sort]) -> Result<(), NoMemory> {
    into.push_str(if sorts.is_empty() { "." } else { ". " })?;
    for sort in sorts {
        into.push_str(match sort {
            Sort::Any => "A",
            Sort::Num => "N",
        })?;
    }
    Ok(())
}

fn show_clause(into: &mut String, clause: &SourceClause) -> Result<(), NoMemory> {
    let mut first = true;
    show_tree(into, &clause.head)?;
    for equation in clause.equations.as_slice() {
        show_mark(into, &mut first)?;
        show_tree(into, &equation.0)?;
        into.push_str(" = ")?;
        show_tree(into, &equation.1)?;
    }
    for row in clause.rows.as_slice() {
        show_mark(into, &mut first)?;
        show_row(into, row)?;
    }
    for atom in clause.atoms.as_slice() {
        show_mark(into, &mut first)?;
        show_tree(into, atom)?;
    }
    show_sorts(into, clause.sorts.as_slice())
}

/// The texts of clauses, a line for each.
pub fn show(alloc: Global, clauses: &[SourceClause]) -> Result<String, NoMemory> {
    let mut into = String::new(alloc);
    for (at, clause) in clauses.iter().enumerate() {
        into.push_str(if at == 0 { "" } else { "\n" })?;
        show_clause(&mut into, clause)?;
    }
    Ok(into)
}

/// Whether this is shown of a clause.
pub fn shows(alloc: Global, clause: &SourceClause, wanted: &str) -> bool {
    let mut into = String::new(alloc);
    show_clause(&mut into, clause).is_ok() && into.as_str() == wanted
}
