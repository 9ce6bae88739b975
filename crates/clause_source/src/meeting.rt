//! The variables of a clause in the order of its text.

ghost use Rattle.std.specs.Prelude.{◌≡◌, ◌<◌, ◌≤◌, nat_eq, length, IfOk, OnOk};
ghost use Rattle.std.specs.List.{list_any};
ghost use Rattle.clp_model.specs.Predicates.{with_element, distinct_after};
ghost use Rattle.clp_model.specs.Trees.{variables, variables_in};
ghost use Rattle.clause_model.specs.Variables.{row_variables, rows_variables, nums_from};
ghost use Rattle.clause_model.specs.Variables as spec;
ghost use Rattle.term_store.specs.Trees.{AreIn};
ghost use Rattle.clause_store.specs.Stored.{atom_at, atoms_at, clause_in, IsStored};

use clause_store::{Clause, Row};
use clp_model::Sort;
use sqlite_items::Items;
use std::alloc::Global;
use term_store::{Look, NoMemory, Store, Term};

/// Whether a number is there.
fn is_met(met: &[u32], number: u32) -> bool
    ensures { result ≡ list_any (nat_eq number) met.now }
{
    met.contains(&number)
}

/// Puts a number last, unless it is there.
fn meet_number(number: u32, met: &mut Items<u32>) -> Result<(), NoMemory>
    ensures { OnOk result (met.new ≡ with_element nat_eq met.old number) }
{
    if is_met(met.as_slice(), number) {
        return Ok(());
    }
    met.push(number)?;
    Ok(())
}

/// Adds the numbers of a term's variables that are not there.
#[cycle(meet)]
#[tactic(auto, using(clause_store::proofs::Numbers::numbers_app, clause_store::proofs::Numbers::numbers_var, clp_model::proofs::Trees::size_app))]
fn meet(store: &Store, t: Term, met: &mut Items<u32>) -> Result<(), NoMemory>
    requires { t < length store.now }
    ensures { OnOk result (met.new ≡ distinct_after nat_eq met.old (variables (atom_at store.now t))) }
{
    match store.look(t) {
        Look::Var(number, _) => meet_number(number, met),
        Look::App(_, args) => meet_all(store, args, met),
    }
}

/// The same of several terms, in order.
#[cycle(meet)]
#[tactic(auto, using(clause_store::proofs::Numbers::met_more, clp_model::proofs::Trees::size_positive))]
fn meet_all(store: &Store, terms: &[Term], met: &mut Items<u32>) -> Result<(), NoMemory>
    requires { AreIn store.now terms.now }
    ensures { OnOk result (met.new ≡ distinct_after nat_eq met.old (variables_in (atoms_at store.now terms.now))) }
{
    for term in terms {
        meet(store, *term, met)?;
    }
    Ok(())
}

/// The same of a row, whose variables rise.
fn meet_row(row: &Row, met: &mut Items<u32>) -> Result<(), NoMemory>
    ensures { OnOk result (met.new ≡ distinct_after nat_eq met.old (row_variables row.now)) }
{
    for pair in row.pairs() {
        meet_number(pair.0, met)?;
    }
    Ok(())
}

/// The same of several rows, in order.
fn meet_rows(rows: &[Row], met: &mut Items<u32>) -> Result<(), NoMemory>
    ensures { OnOk result (met.new ≡ distinct_after nat_eq met.old (rows_variables rows.now)) }
{
    for row in rows {
        meet_row(row, met)?;
    }
    Ok(())
}

/// The same of the variables that are Num, by rising number.
fn meet_nums(sorts: &[Sort], met: &mut Items<u32>) -> Result<(), NoMemory>
    requires { length sorts.now ≤ 256 }
    ensures { OnOk result (met.new ≡ distinct_after nat_eq met.old (nums_from 1 sorts.now)) }
{
    let mut number = 1;
    for sort in sorts {
        if *sort == Sort::Num {
            meet_number(number, met)?;
        }
        number += 1;
    }
    Ok(())
}

/// The variables of a clause, each once, as they are first met in its text: in the head, then the rows, then as Num
/// variables in no row, and then in the atoms. When the rows are done, each Num variable that was not met is one that
/// is in no row, or stands in the head, where it was met.
pub(crate) fn variables_as_printed(
    alloc: Global,
    store: &Store,
    c: &Clause,
) -> Result<Items<u32>, NoMemory>
    requires { IsStored store.now c.now }
    ensures { IfOk result (λ met. met ≡ spec.variables_as_printed (clause_in store.now c.now)) }
{
    let mut met = Items::new(alloc);
    meet(store, c.head, &mut met)?;
    meet_rows(c.rows.as_slice(), &mut met)?;
    meet_nums(c.sorts.as_slice(), &mut met)?;
    meet_all(store, c.atoms.as_slice(), &mut met)?;
    Ok(met)
}
