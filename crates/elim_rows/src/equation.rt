//! Elimination by an equation that has the variable.

ghost use Rattle.std.specs.Prelude.{◌≡◌, ◌<◌, ◌+◌, ◌++◌, ◌&&◌, true, false, take, drop, length, Some, None, OnOk, Err, IfSome, IfNone};
ghost use Rattle.linear_model.specs.Elimination as spec;
ghost use Rattle.elim_rows.specs.Made.{all_within};
ghost use Rattle.elim_rows.specs.Kept.{Adds, flat, of_substituted};
ghost use Rattle.lin_row.specs.declared.row.RowFault.TheVariants.{Overflow};

use crate::cancelling::{coefficient_of, factors, opposed};
use crate::kept::Kept;
use lin_row::{Rel, Row, RowFault};
use std::alloc::Global;

/// Whether it is an equation that has the variable.
fn is_equation_of(row: &Row, var: u32) -> bool
    ensures { result ≡ spec.is_equation row.now.rel && spec.has var row.now }
{
    match row.rel() {
        Rel::Eq => coefficient_of(row, var) != 0,
        Rel::Le | Rel::Lt => false,
    }
}

/// The first equation that has the variable, with its place.
#[tactic(auto, using(crate::proofs::Finding::found_at, crate::proofs::Finding::not_found_at, crate::proofs::Finding::not_found))]
pub fn first_equation(rows: &[Row], var: u32) -> Option<(usize, &Row)>
    ensures within { IfSome result (λ found. found.0 < length rows.now) }
    ensures first { IfSome result (λ found. spec.first_equation spec.row_itself var rows.now ≡ Some (found.1.now, take found.0 rows.now ++ drop (found.0 + 1) rows.now)) }
    ensures has { IfSome result (λ found. spec.has var found.1.now ≡ true) }
    ensures none { IfNone result (spec.first_equation spec.row_itself var rows.now ≡ None) }
{
    for (place, row) in rows.iter().enumerate() {
        if is_equation_of(row, var) {
            return Some((place, row));
        }
    }
    None
}

/// Adds what becomes of the row by the equation.
fn substitute(
    alloc: Global,
    kept: &mut Kept,
    var: u32,
    equation: &Row,
    row: &Row,
) -> Result<(), RowFault>
    requires { spec.has var equation.now ≡ true }
    ensures value { OnOk result (Adds kept.old (of_substituted var equation.now row.now) kept.new) }
    ensures overflow { result ≡ Err Overflow → all_within (of_substituted var equation.now row.now) ≡ false }
{
    let coefficient = coefficient_of(row, var);
    if coefficient == 0 {
        return kept.add_copy(alloc, row);
    }
    let pivot = coefficient_of(equation, var);
    let (of_equation, of_row) = factors(pivot, coefficient);
    let signed = opposed(pivot, coefficient, of_equation);
    let made = row.combine(alloc, row.rel(), of_row, signed, equation)?;
    kept.add(made)
}

/// Adds what becomes of each row by the equation.
#[tactic(auto, using(crate::proofs::Adding::adds_all))]
pub fn substitute_each(
    alloc: Global,
    kept: &mut Kept,
    var: u32,
    equation: &Row,
    rows: &[Row],
) -> Result<(), RowFault>
    requires { spec.has var equation.now ≡ true }
    ensures value { OnOk result (Adds kept.old (flat (of_substituted var equation.now) rows.now) kept.new) }
    ensures overflow { result ≡ Err Overflow → all_within (flat (of_substituted var equation.now) rows.now) ≡ false }
{
    for row in rows {
        substitute(alloc, kept, var, equation, row)?;
    }
    Ok(())
}
