//! The elimination of a variable.

ghost use Rattle.std.specs.Prelude.{◌≡◌, ◌<◌, ◌≤◌, [], true, false, length, IfOk, OnOk, Err, All, Contains, ◌↔◌};
ghost use Rattle.clp_model.specs.Values.{Valuation};
ghost use Rattle.clp_model.specs.Clauses.{Row, RowHolds};
ghost use Rattle.linear_model.specs.Elimination.{elimination, has, SameBut};
ghost use Rattle.elim_rows.specs.Made.{made, all_within};
ghost use Rattle.elim_rows.specs.Kept.{Adds};
ghost use Rattle.lin_row.specs.declared.row.RowFault.TheVariants.{Overflow as RowOverflow};
ghost use Rattle.elim_rows.specs.declared.elimination.ElimFault.TheVariants.{Overflow, TooMany};

use crate::bounds::{keep_others, pair_bounds};
use crate::equation::{first_equation, substitute_each};
use crate::kept::Kept;
use lin_row::{Row, RowFault};
use std::alloc::Global;

/// The most rows that an elimination may give.
const MAX_ROWS: usize = 128;

/// Why rows were not made.
#[derive(Clone, Copy, Debug, PartialEq, Eq)]
pub enum ElimFault {
    /// A coefficient or a constant of a row that is made, also of one that would be dropped, is above 2^63 - 1.
    Overflow,
    /// All rows that are made are in range, and more than 128 are left.
    TooMany,
    NoMemory,
}

impl From<RowFault> for ElimFault {
    ghost use Rattle.std.specs.Prelude.{◌≡◌};
    ghost use Rattle.elim_rows.specs.Faults.{fault_of};

    ghost from_gives = { λ f e. e ≡ fault_of f };

    fn from(fault: RowFault) -> ElimFault {
        match fault {
            RowFault::Overflow => ElimFault::Overflow,
            RowFault::NoMemory => ElimFault::NoMemory,
        }
    }
}

/// Makes all rows of the elimination, and keeps those that are no true constant and no repeat.
fn make_rows(alloc: Global, rows: &[Row], var: u32) -> Result<Kept, RowFault>
    ensures value { IfOk result (λ kept. Adds [] (made var rows.now) kept) }
    ensures overflow { result ≡ Err RowOverflow → all_within (made var rows.now) ≡ false }
{
    let mut kept = Kept::new(alloc);
    match first_equation(rows, var) {
        Some((place, equation)) => {
            substitute_each(alloc, &mut kept, var, equation, &rows[..place])?;
            substitute_each(alloc, &mut kept, var, equation, &rows[place + 1..])?;
        }
        None => {
            keep_others(alloc, &mut kept, var, rows)?;
            pair_bounds(alloc, &mut kept, var, rows)?;
        }
    }
    Ok(kept)
}

/// Eliminates a variable from at most 128 rows, exactly over the rationals. Where an equation has the variable, the
/// first such is solved for it and put into the other rows (Gauss); else each lower bound is combined with each
/// upper bound (Fourier and Motzkin). The rows are in normal form, without true constants and repeats.
pub fn eliminate(alloc: Global, rows: &[Row], var: u32) -> Result<Vec<Row>, ElimFault>
    requires { length rows.now ≤ 128 }
    ensures value { IfOk result (λ left. left.items ≡ elimination var rows.now) }
    ensures within { OnOk result (all_within (made var rows.now) ≡ true) }
    ensures few { OnOk result (length (elimination var rows.now) ≤ 128) }
    ensures overflow { result ≡ Err Overflow → all_within (made var rows.now) ≡ false }
    ensures exact { IfOk result (λ left. (u : Valuation) → All (RowHolds u) left.items ↔ ((w : Valuation) × SameBut var u w × All (RowHolds w) rows.now)) }
    ensures gone { IfOk result (λ left. (r : Row) → Contains left.items r → has var r ≡ false) }
    ensures too_many { result ≡ Err TooMany → (all_within (made var rows.now) ≡ true) × (128 < length (elimination var rows.now)) }
{
    let kept = make_rows(alloc, rows, var)?;
    if kept.len() > MAX_ROWS {
        return Err(ElimFault::TooMany);
    }
    Ok(kept.into_rows(alloc)?)
}
