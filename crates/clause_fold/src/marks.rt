//! Variables that are marked.

ghost use Rattle.std.specs.Prelude.{◌≡◌, ◌<◌, ◌∷◌, [], All, length, IfOk, map};
ghost use Rattle.clp_model.specs.Trees.{variables, variables_in};
ghost use Rattle.clause_model.specs.Variables.{row_variables, rows_variables};
ghost use Rattle.term_store.specs.Trees.{AreIn};
ghost use Rattle.clause_store.specs.Stored.{atom_at, atoms_at};
ghost use Rattle.clause_loader.specs.WellFormed.{IsNumber};
ghost use Rattle.clause_fold.specs.Marks.{is_marked, Adds, Are};

use clause_store::Row;
use std::alloc::Global;
use std::marker::Model;
use term_store::{Look, NoMemory, Store, Term};

/// Which of the variables from 1 to a count are marked.
#[derive(Drop)]
pub(crate) struct Marks {
    table: Vec<bool>,
}

impl Model for Marks {
    ghost use Rattle.std.specs.Prelude.{List, Bool};

    ghost Value = { List Bool };

    ghost view = { λ m. m.table.items };
}

impl Marks {
    /// No variable is marked.
    pub(crate) fn new(alloc: Global, count: usize) -> Result<Marks, NoMemory>
        ensures { IfOk result (λ m. Are m count []) }
    {
        let mut table = Vec::new(alloc);
        table.resize(count, false)?;
        Ok(Marks { table })
    }

    /// Whether the variable is marked.
    pub(crate) fn has(&self, number: u32) -> bool
        ensures { result ≡ is_marked self.now number }
    {
        if number == 0 {
            return false;
        }
        self.table
            .get(number as usize - 1)
            .copied()
            .unwrap_or(false)
    }

    /// Marks the variable.
    pub(crate) fn add(&mut self, number: u32)
        requires { IsNumber (length self.old) number }
        ensures { Adds self.old self.new (number ∷ []) }
    {
        self.table[number as usize - 1] = true;
    }

    /// Marks the variables of a term.
    #[cycle(add_term)]
    #[tactic(auto, using(clause_store::proofs::Numbers::numbers_app, clause_store::proofs::Numbers::numbers_var, clp_model::proofs::Trees::size_app))]
    pub(crate) fn add_term(&mut self, store: &Store, t: Term)
        requires within { t < length store.now }
        requires numbered { All (IsNumber (length self.old)) (variables (atom_at store.now t)) }
        ensures { Adds self.old self.new (variables (atom_at store.now t)) }
    {
        match store.look(t) {
            Look::Var(number, _) => self.add(number),
            Look::App(_, args) => self.add_terms(store, args),
        }
    }

    /// The same of several terms.
    #[cycle(add_term)]
    #[tactic(auto, using(substitution::proofs::Weighed::item_in, substitution::proofs::Weighed::item_size, crate::proofs::Marked::term_numbered))]
    pub(crate) fn add_terms(&mut self, store: &Store, terms: &[Term])
        requires within { AreIn store.now terms.now }
        requires numbered { All (IsNumber (length self.old)) (variables_in (atoms_at store.now terms.now)) }
        ensures { Adds self.old self.new (variables_in (atoms_at store.now terms.now)) }
    {
        for term in terms {
            self.add_term(store, *term);
        }
    }

    /// The same of a row.
    fn add_row(&mut self, row: &Row)
        requires { All (IsNumber (length self.old)) (row_variables row.now) }
        ensures { Adds self.old self.new (row_variables row.now) }
    {
        for pair in row.pairs() {
            self.add(pair.0);
        }
    }

    /// The same of several rows.
    pub(crate) fn add_rows(&mut self, rows: &[Row])
        requires { All (IsNumber (length self.old)) (rows_variables rows.now) }
        ensures { Adds self.old self.new (rows_variables rows.now) }
    {
        for row in rows {
            self.add_row(row);
        }
    }
}
