//! The rows of a source clause, with what solves its equations carried out in them.

ghost use Rattle.std.specs.Prelude.{◌≡◌, ℕ, false, All, Contains, Err, IfOk, OnOk, length, map};
ghost use Rattle.linear_model.specs.Normal.{normal};
ghost use Rattle.linear_model.specs.Changes.{renamed};
ghost use Rattle.lin_row.specs.Rows.{at, IsKept};
ghost use Rattle.lin_row.specs.declared.row.RowFault.TheVariants.{Overflow};
ghost use Rattle.term_store.specs.Trees.{Keeps};
ghost use Rattle.substitution.specs.Weights.{IsOf, images};
ghost use Rattle.clause_model.specs.Variables.{row_variables, rows_variables};
ghost use Rattle.clause_model.specs.Canonical.{all_within};
ghost use Rattle.clause_loader.specs.WellFormed.{IsNumber};
ghost use Rattle.clause_loader.specs.Carried.{number_by};

use clause_store::{Row, sort_in};
use clp_model::Sort;
use lin_row::RowFault;
use sqlite_items::Items;
use std::alloc::Global;
use term_store::{Look, NoMemory, Store, TermFault};
use unify::{Subst, apply};

/// The number of the variable that a variable becomes, and 0 where it becomes an application, which no Num variable does.
fn image_number(store: &mut Store, s: &Subst, sorts: &[Sort], number: u32) -> Result<u32, NoMemory>
    requires of { IsOf store.old s.now }
    ensures keeps { Keeps store.old store.new }
    ensures value { IfOk result (λ n. n ≡ number_by sorts.now (images store.old s.now) number) }
{
    let variable = store.var(number, sort_in(sorts, number))?;
    match apply(store, s, variable) {
        Ok(image) => match store.look(image) {
            Look::Var(image, _) => Ok(image),
            Look::App(_, _) => Ok(0),
        },
        Err(TermFault::TooLarge) => Ok(0),
        Err(TermFault::NoMemory) => Err(NoMemory),
    }
}

/// Puts the number of what a variable becomes into its place of a table.
fn note_number(
    store: &mut Store,
    s: &Subst,
    sorts: &[Sort],
    number: u32,
    table: &mut Vec<u32>,
) -> Result<(), NoMemory>
    requires of { IsOf store.old s.now }
    requires within { IsNumber (length table.old.items) number }
    ensures keeps { Keeps store.old store.new }
    ensures count { length table.new.items ≡ length table.old.items }
    ensures noted { OnOk result (at table.new.items number ≡ number_by sorts.now (images store.old s.now) number) }
    ensures others { OnOk result ((n : ℕ) → at table.old.items n ≡ number_by sorts.now (images store.old s.now) n → at table.new.items n ≡ number_by sorts.now (images store.old s.now) n) }
{
    let image = image_number(store, s, sorts, number)?;
    table[number as usize - 1] = image;
    Ok(())
}

/// The same of each variable of a row.
fn note_row(
    store: &mut Store,
    s: &Subst,
    sorts: &[Sort],
    row: &Row,
    table: &mut Vec<u32>,
) -> Result<(), NoMemory>
    requires of { IsOf store.old s.now }
    requires within { All (IsNumber (length table.old.items)) (row_variables row.now) }
    ensures keeps { Keeps store.old store.new }
    ensures count { length table.new.items ≡ length table.old.items }
    ensures noted { OnOk result (All (λ n. at table.new.items n ≡ number_by sorts.now (images store.old s.now) n) (row_variables row.now)) }
    ensures others { OnOk result ((n : ℕ) → at table.old.items n ≡ number_by sorts.now (images store.old s.now) n → at table.new.items n ≡ number_by sorts.now (images store.old s.now) n) }
{
    for pair in row.pairs() {
        note_number(store, s, sorts, pair.0, table)?;
    }
    Ok(())
}

/// A table that has for each variable of the rows the number of what it becomes.
fn table_of(
    alloc: Global,
    store: &mut Store,
    s: &Subst,
    sorts: &[Sort],
    rows: &[Row],
) -> Result<Vec<u32>, NoMemory>
    requires of { IsOf store.old s.now }
    requires within { All (IsNumber (length sorts.now)) (rows_variables rows.now) }
    ensures keeps { Keeps store.old store.new }
    ensures count { IfOk result (λ table. length table.items ≡ length sorts.now) }
    ensures noted { IfOk result (λ table. All (λ n. at table.items n ≡ number_by sorts.now (images store.old s.now) n) (rows_variables rows.now)) }
{
    let mut table = Vec::new(alloc);
    table.resize(sorts.len(), 0)?;
    for row in rows {
        note_row(store, s, sorts, row, &mut table)?;
    }
    Ok(table)
}

/// The rows in normal form, with the variables that theirs become.
fn renamed_rows(alloc: Global, rows: &[Row], table: &[u32]) -> Result<Items<Row>, RowFault>
    requires { All (IsNumber (length table.now)) (rows_variables rows.now) }
    ensures rows { IfOk result (λ rs. rs ≡ map (λ r. normal (renamed (at table.now) r)) rows.now) }
    ensures kept { IfOk result (All IsKept) }
    ensures overflow { result ≡ Err Overflow → all_within (map (renamed (at table.now)) rows.now) ≡ false }
{
    let mut all = Items::new(alloc);
    for row in rows {
        let row = row.rename(alloc, table)?;
        match all.push(row) {
            Ok(()) => {}
            Err(_) => return Err(RowFault::NoMemory),
        }
    }
    Ok(all)
}

/// The rows in normal form, with the variables that theirs become where the equations are solved. `Overflow` exactly
/// where the normal form of one is out of range.
pub fn carried_rows(
    alloc: Global,
    store: &mut Store,
    s: &Subst,
    sorts: &[Sort],
    rows: &[Row],
) -> Result<Items<Row>, RowFault>
    requires of { IsOf store.old s.now }
    requires within { All (IsNumber (length sorts.now)) (rows_variables rows.now) }
    ensures keeps { Keeps store.old store.new }
    ensures rows { IfOk result (λ rs. rs ≡ map (λ r. normal (renamed (number_by sorts.now (images store.old s.now)) r)) rows.now) }
    ensures kept { IfOk result (All IsKept) }
    ensures overflow { result ≡ Err Overflow → all_within (map (renamed (number_by sorts.now (images store.old s.now))) rows.now) ≡ false }
{
    match table_of(alloc, store, s, sorts, rows) {
        Ok(table) => renamed_rows(alloc, rows, table.as_slice()),
        Err(_) => Err(RowFault::NoMemory),
    }
}
