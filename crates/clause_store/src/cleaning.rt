//! Rows without true constants and repeats.

ghost use Rattle.std.specs.Prelude.{◌≡◌, [], true, IfOk, OnOk, IsTrue, ◌↔◌};
ghost use Rattle.std.specs.Prelude.{if◌then◌else◌};
ghost use Rattle.clp_model.specs.Predicates.{with_element};
ghost use Rattle.linear_model.specs.Normal.{is_always, row_eq};

use crate::rows::copy_row;
use indexmap::IndexSet;
use lin_row::{Row, Truth};
use sqlite_items::Items;
use std::alloc::Global;
use std::marker::Model;
use term_store::NoMemory;

/// The rows that came, in order, without true constants and repeats. A repeat is found by its hash.
#[derive(Drop)]
pub(crate) struct CleanRows {
    rows: IndexSet<Row>,
}

impl Model for CleanRows {
    ghost use Rattle.std.specs.Prelude.{List};
    ghost use Rattle.clp_model.specs.Clauses.{Row};

    ghost Value = { List Row };

    ghost view = { λ k. k.rows.keys };
}

/// Whether the row is true and has no variable.
fn is_always(row: &Row) -> bool
    ensures { IsTrue result ↔ (is_always row.now ≡ true) }
{
    match row.truth() {
        Truth::Always => true,
        Truth::Never | Truth::Depends => false,
    }
}

impl CleanRows {
    pub(crate) fn new(alloc: Global) -> CleanRows
        ensures { result ≡ [] }
    {
        CleanRows {
            rows: IndexSet::new(alloc),
        }
    }

    /// Puts a copy of the row last, unless it is a true constant or there.
    pub(crate) fn add_copy(&mut self, alloc: Global, row: &Row) -> Result<(), NoMemory>
        ensures value { OnOk result (self.new ≡ (if is_always row.now then self.old else with_element row_eq self.old row.now)) }
    {
        if !is_always(row) {
            self.insert(copy_row(alloc, row)?)?;
        }
        Ok(())
    }

    /// Puts the row last, unless it is there.
    fn insert(&mut self, row: Row) -> Result<(), NoMemory>
        ensures value { OnOk result (self.new ≡ with_element row_eq self.old row) }
    {
        match self.rows.insert(row) {
            Ok(_) => Ok(()),
            Err(_) => Err(NoMemory),
        }
    }

    /// The rows in order.
    pub(crate) fn into_rows(self, alloc: Global) -> Result<Items<Row>, NoMemory>
        ensures value { IfOk result (λ rows. rows ≡ self) }
    {
        match self.rows.into_iter().collect(alloc) {
            Ok(rows) => Ok(Items::from_vec(rows)),
            Err(_) => Err(NoMemory),
        }
    }
}
