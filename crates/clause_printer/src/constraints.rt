//! Prints the constraints of clauses.

ghost use Rattle.std.specs.Prelude.{◌≡◌, ◌++◌, map, nat_eq, IfOk, OnOk, string_bytes, codes};
ghost use Rattle.std.specs.List.{list_any};
ghost use Rattle.clause_model.specs.Variables.{row_variables, rows_variables};
ghost use Rattle.print_model.specs.Joined.{joined};
ghost use Rattle.print_model.specs.Rows.{row_text};
ghost use Rattle.print_model.specs.Clauses.{num_text};
ghost use Rattle.clause_printer.specs.Loose.{loose, before};

use crate::row::{print_variable, row};
use clause_store::Row;
use clp_model::Sort;
use sqlite_items::Items;
use std::alloc::Global;
use term_store::NoMemory;

fn has_variable(row: &Row, number: usize) -> bool
    ensures { result ≡ list_any (λ m. nat_eq m number) (row_variables row.now) }
{
    for pair in row.pairs() {
        if pair.0 as usize == number {
            return true;
        }
    }
    false
}

fn have_variable(rows: &[Row], number: usize) -> bool
    ensures { result ≡ list_any (λ m. nat_eq m number) (rows_variables rows.now) }
{
    for row in rows {
        if has_variable(row, number) {
            return true;
        }
    }
    false
}

/// The Num variables that are in no row, by rising number, where variable `n` has its sort at place `n` of `sorts`.
#[tactic(auto, using(std::proofs::lemmas::List::append_assoc))]
pub fn loose_nums(alloc: Global, rows: &[Row], sorts: &[Sort]) -> Result<Items<usize>, NoMemory>
    ensures { IfOk result (λ ns. ns ≡ loose 1 rows.now sorts.now) }
{
    let mut loose = Items::new(alloc);
    for index in 0..sorts.len() {
        let number = index + 1;
        if sorts[index] == Sort::Num && !have_variable(rows, number) {
            loose.push(number)?;
        }
    }
    Ok(loose)
}

/// Appends that a variable is a number.
#[tactic(auto, using(std::proofs::lemmas::List::append_assoc))]
fn num(number: usize, into: &mut String) -> Result<(), NoMemory>
    ensures { OnOk result (string_bytes into.new ≡ string_bytes into.old ++ num_text number) }
{
    into.push_str("num(")?;
    print_variable(number, into)?;
    into.push_str(")")?;
    Ok(())
}

/// What stands before a constraint.
fn mark(is_first: bool) -> &'static str
    ensures { result.now ≡ before is_first }
{
    if is_first { "{" } else { ", " }
}

/// Appends the goal that has the constraints of a clause, of which there is one at least: the rows, and `num(V)` for
/// each of these variables, in braces. After an error a part of it may be there.
#[tactic(auto, using(std::proofs::lemmas::List::append_assoc))]
pub fn print_braces(rows: &[Row], nums: &[usize], into: &mut String) -> Result<(), NoMemory>
    ensures { OnOk result (string_bytes into.new ≡ string_bytes into.old ++ (joined (codes "{") (codes ", ") (map row_text rows.now ++ map num_text nums.now) ++ codes "}")) }
{
    let mut is_first = true;
    for r in rows {
        into.push_str(mark(is_first))?;
        row(r, into)?;
        is_first = false;
    }
    for number in nums {
        into.push_str(mark(is_first))?;
        num(*number, into)?;
        is_first = false;
    }
    into.push_str("}")?;
    Ok(())
}
