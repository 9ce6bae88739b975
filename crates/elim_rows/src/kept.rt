//! Rows without true constants and repeats.

ghost use Rattle.std.specs.Prelude.{◌≡◌, [], true, IfOk, OnOk, IfErr, length, IsTrue, ◌↔◌};
ghost use Rattle.clp_model.specs.Predicates.{with_element};
ghost use Rattle.linear_model.specs.Normal.{is_always, row_eq};
ghost use Rattle.elim_rows.specs.Kept.{with_row};
ghost use Rattle.lin_row.specs.declared.row.RowFault.TheVariants.{NoMemory};

use indexmap::IndexSet;
use lin_row::{Row, RowFault, Truth};
use std::alloc::Global;
use std::marker::Model;

/// The rows that came, in order, without true constants and repeats. A repeat is found by its hash.
#[derive(Drop)]
pub struct Kept {
    rows: IndexSet<Row>,
}

impl Model for Kept {
    ghost use Rattle.std.specs.Prelude.{List};
    ghost use Rattle.clp_model.specs.Clauses.{Row};

    ghost Value = { List Row };

    ghost view = { λ k. k.rows.keys };
}

/// Whether the row is true and has no variable.
fn is_always(row: &Row) -> bool
    ensures { IsTrue result ↔ (is_always row.now ≡ true) }
{
    match row.truth() {
        Truth::Always => true,
        Truth::Never | Truth::Depends => false,
    }
}

impl Kept {
    pub fn new(alloc: Global) -> Kept
        ensures { result ≡ [] }
    {
        Kept {
            rows: IndexSet::new(alloc),
        }
    }

    /// How many rows are kept.
    pub fn len(&self) -> usize
        ensures { result ≡ length self.now }
    {
        self.rows.len()
    }

    /// Puts the row last, unless it is a true constant or there.
    pub fn add(&mut self, row: Row) -> Result<(), RowFault>
        ensures value { OnOk result (self.new ≡ with_row self.old row) }
        ensures fault { IfErr result (λ e. e ≡ NoMemory) }
    {
        if !is_always(&row) {
            self.insert(row)?;
        }
        Ok(())
    }

    /// Puts a copy of the row last, unless it is a true constant or there.
    pub fn add_copy(&mut self, alloc: Global, row: &Row) -> Result<(), RowFault>
        ensures value { OnOk result (self.new ≡ with_row self.old row.now) }
        ensures fault { IfErr result (λ e. e ≡ NoMemory) }
    {
        if !is_always(row) {
            self.insert(row.copy(alloc)?)?;
        }
        Ok(())
    }

    /// Puts the row last, unless it is there.
    fn insert(&mut self, row: Row) -> Result<(), RowFault>
        ensures value { OnOk result (self.new ≡ with_element row_eq self.old row) }
        ensures fault { IfErr result (λ e. e ≡ NoMemory) }
    {
        match self.rows.insert(row) {
            Ok(_) => Ok(()),
            Err(_) => Err(RowFault::NoMemory),
        }
    }

    /// The rows in order.
    pub fn into_rows(self, alloc: Global) -> Result<Vec<Row>, RowFault>
        ensures value { IfOk result (λ v. v.items ≡ self) }
        ensures fault { IfErr result (λ e. e ≡ NoMemory) }
    {
        match self.rows.into_iter().collect(alloc) {
            Ok(rows) => Ok(rows),
            Err(_) => Err(RowFault::NoMemory),
        }
    }
}
