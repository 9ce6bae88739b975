//! What is known of a clause that is evaluated.

ghost use Rattle.std.specs.Prelude.{◌≡◌, ◌+◌, length, IfOk, OnOk};
ghost use Rattle.clp_grammar.specs.Terms as spec;
ghost use Rattle.clause_meaning.specs.Known as known;

use crate::values::number_of;
use clause_store::SourceClause;
use clp_model::{Sort, Tree};
use lin_row::Row;
use sqlite_items::Items;
use std::alloc::{AllocError, Global};
use std::marker::Model;

/// The greatest number of a variable.
const LAST: usize = 4_294_967_295;

/// What is known of a clause that is evaluated, as far as it has been.
#[derive(Drop)]
pub(crate) struct Known {
    /// The variable of each name by the name's place, 0 for one that was not met yet.
    numbers: Vec<u32>,
    sorts: Items<Sort>,
    equations: Items<(Tree, Tree)>,
    rows: Items<Row>,
    atoms: Items<Tree>,
}

impl Model for Known {
    ghost use Rattle.clp_grammar.specs.Terms.{Meaning};
    ghost use Rattle.clause_meaning.specs.MeaningCode.{meaning_code};

    ghost Value = { Meaning };

    ghost coded = { meaning_code };

    ghost view = { λ k. record { numbers = k.numbers.items; sorts = k.sorts; equations = k.equations; rows = k.rows; atoms = k.atoms } };
}

impl Known {
    /// Before anything of a clause with this many names.
    pub fn new(alloc: Global, names: usize) -> Result<Known, AllocError>
        ensures { IfOk result (λ k. k ≡ spec.nothing names) }
    {
        Ok(Known {
            numbers: Vec::from_elem(alloc, 0, names)?,
            sorts: Items::new(alloc),
            equations: Items::new(alloc),
            rows: Items::new(alloc),
            atoms: Items::new(alloc),
        })
    }

    /// The variables of the names by their places.
    pub fn numbers(&self) -> &[u32]
        ensures { result.now ≡ self.now.numbers }
    {
        self.numbers.as_slice()
    }

    /// The variable of a name, 0 for one that was not met yet.
    pub fn number(&self, name: u32) -> u32
        ensures { result ≡ spec.number_in self.now name }
    {
        number_of(self.numbers.as_slice(), name)
    }

    /// The number of the next variable. There are at most 4,294,967,295 of them.
    pub fn next(&self) -> Result<u32, AllocError>
        ensures { IfOk result (λ v. v ≡ length self.now.sorts + 1) }
    {
        let count = self.sorts.len();
        if count < LAST {
            Ok(count as u32 + 1)
        } else {
            Err(AllocError)
        }
    }

    /// A new variable of this sort, which has the next number.
    pub fn push_sort(&mut self, sort: Sort) -> Result<(), AllocError>
        ensures { OnOk result (self.new ≡ spec.with_new sort self.old) }
    {
        self.sorts.push(sort)
    }

    /// Gives this name this variable.
    #[tactic(auto, using(std::proofs::lemmas::List::set_past))]
    fn set_number(&mut self, name: u32, number: u32)
        ensures { self.new ≡ known.with_number name number self.old }
    {
        let at = (name as usize).saturating_sub(1);
        if at < self.numbers.len() {
            self.numbers[at] = number;
        }
    }

    /// This variable is a number.
    #[tactic(auto, using(std::proofs::lemmas::List::set_past))]
    fn set_num(&mut self, number: u32)
        ensures { self.new ≡ spec.with_num number self.old }
    {
        let at = (number as usize).saturating_sub(1);
        if at < self.sorts.len() {
            self.sorts.set(at, Sort::Num);
        }
    }

    /// This name stands for the next variable.
    #[tactic(auto, unfolding(clp_grammar::specs::Terms::with_name))]
    fn name_next(&mut self, name: u32) -> Result<(), AllocError>
        ensures { OnOk result (self.new ≡ spec.with_name name self.old) }
    {
        let number = self.next()?;
        self.push_sort(Sort::Any)?;
        self.set_number(name, number);
        Ok(())
    }

    /// The name has a variable.
    #[tactic(auto, unfolding(clp_grammar::specs::Terms::met))]
    pub fn meet(&mut self, name: u32) -> Result<(), AllocError>
        ensures { OnOk result (self.new ≡ spec.met name self.old) }
    {
        if self.number(name) == 0 {
            self.name_next(name)
        } else {
            Ok(())
        }
    }

    /// The name has a variable that is a number.
    #[tactic(auto, unfolding(clp_grammar::specs::Terms::met_num))]
    pub fn meet_num(&mut self, name: u32) -> Result<(), AllocError>
        ensures { OnOk result (self.new ≡ spec.met_num name self.old) }
    {
        self.meet(name)?;
        let number = self.number(name);
        self.set_num(number);
        Ok(())
    }

    pub fn push_row(&mut self, row: Row) -> Result<(), AllocError>
        ensures { OnOk result (self.new ≡ spec.with_row row self.old) }
    {
        self.rows.push(row)
    }

    pub fn push_atom(&mut self, atom: Tree) -> Result<(), AllocError>
        ensures { OnOk result (self.new ≡ known.with_atom atom self.old) }
    {
        self.atoms.push(atom)
    }

    pub fn push_equation(&mut self, first: Tree, second: Tree) -> Result<(), AllocError>
        ensures { OnOk result (self.new ≡ known.with_equation first second self.old) }
    {
        self.equations.push((first, second))
    }

    /// The clause with this head.
    pub fn into_clause(self, head: Tree) -> SourceClause
        ensures { result ≡ known.clause_of head self }
    {
        SourceClause {
            head,
            equations: self.equations,
            rows: self.rows,
            atoms: self.atoms,
            sorts: self.sorts,
        }
    }
}
