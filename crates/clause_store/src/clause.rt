ghost use Rattle.std.specs.Prelude.{◌≡◌, ◌≤◌, ◌∷◌, IfOk};
ghost use Rattle.clp_model.specs.Trees.{total_size};
ghost use Rattle.clp_model.specs.Canonical.{clause_size};
ghost use Rattle.term_store.specs.Trees.{trees_at, AreIn, Keeps};
ghost use Rattle.clause_store.specs.Stored.{clause_in, IsStored};

use crate::rows::{copy_rows, rows_size};
use clp_model::Sort;
use lin_row::Row;
use sqlite_items::Items;
use std::alloc::Global;
use term_store::{NoMemory, Store, Term};

/// A clause in canonical form and within the limits: its head, its rows in normal form, its body atoms, and the sort
/// of each variable. It is read in the store that stands beside it.
#[derive(Drop)]
pub struct Clause {
    pub head: Term,
    pub rows: Items<Row>,
    pub atoms: Items<Term>,
    pub sorts: Items<Sort>,
}

/// The parts of a clause before it is brought into canonical form. The head and the atoms are applications, variables
/// are numbered from 1, variable `n` has its sort at place `n` of `sorts`, and that of a variable of a row is `Num`.
#[derive(Drop)]
pub struct RawClause {
    pub head: Term,
    pub rows: Items<Row>,
    pub atoms: Items<Term>,
    pub sorts: Items<Sort>,
}

impl Clause {
    /// An equal clause, of the same store.
    pub fn copy(&self, alloc: Global) -> Result<Clause, NoMemory>
        ensures { IfOk result (λ c. c ≡ self.now) }
    {
        Ok(Clause {
            head: self.head,
            rows: copy_rows(alloc, self.rows.as_slice())?,
            atoms: Items::from_slice(alloc, self.atoms.as_slice())?,
            sorts: Items::from_slice(alloc, self.sorts.as_slice())?,
        })
    }
}

/// The nodes of the head and the body atoms.
fn terms_size(store: &Store, c: &Clause) -> u32
    requires stored { IsStored store.now c.now }
    ensures value { result ≡ total_size (trees_at store.now (c.now.head ∷ c.now.atoms)) }
{
    let mut size = store.size(c.head);
    for atom in c.atoms.as_slice() {
        size += store.size(*atom);
    }
    size
}

/// The nodes of the head and the body atoms, and for each row one and one for each of its coefficients.
pub fn clause_size(store: &Store, c: &Clause) -> u32
    requires { IsStored store.now c.now }
    ensures value { result ≡ clause_size (clause_in store.now c.now) }
    ensures small { result ≤ 4096 }
{
    terms_size(store, c) + rows_size(c.rows.as_slice())
}

/// A clause of the store `to` that stands for the same as a clause of the store `from`.
pub fn copy_clause(
    alloc: Global,
    to: &mut Store,
    from: &Store,
    c: &Clause,
) -> Result<Clause, NoMemory>
    requires { IsStored from.now c.now }
    ensures keeps { Keeps to.old to.new }
    ensures same { IfOk result (λ copy. clause_in to.new copy ≡ clause_in from.now c.now) }
    ensures stored { IfOk result (λ copy. IsStored to.new copy) }
{
    let head = to.copy(from, c.head)?;
    let atoms = to.copy_all(from, c.atoms.as_slice())?;
    let rows = copy_rows(alloc, c.rows.as_slice())?;
    let sorts = Items::from_slice(alloc, c.sorts.as_slice())?;
    Ok(Clause {
        head,
        rows,
        atoms,
        sorts,
    })
}
