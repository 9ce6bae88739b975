//! The variables of terms and rows, by first occurrence.

ghost use Rattle.std.specs.Prelude.{◌≡◌, ◌<◌, ◌∷◌, nat_eq, length, IfOk, OnOk};
ghost use Rattle.std.specs.List.{list_any};
ghost use Rattle.clp_model.specs.Predicates.{with_element, distinct_after};
ghost use Rattle.clp_model.specs.Trees.{variables, variables_in};
ghost use Rattle.term_store.specs.Trees.{AreIn};
ghost use Rattle.clause_model.specs.Variables.{row_variables, rows_variables, variables_by_first_occurrence};
ghost use Rattle.clause_store.specs.Stored.{atom_at, atoms_at, raw_with};

use crate::clause::RawClause;
use lin_row::Row;
use sqlite_items::Items;
use std::alloc::Global;
use term_store::{Look, NoMemory, Store, Term};

/// Puts a number last, unless it is there.
fn meet_number(number: u32, met: &mut Items<u32>) -> Result<(), NoMemory>
    ensures { OnOk result (met.new ≡ with_element nat_eq met.old number) }
{
    if is_met(met.as_slice(), number) {
        return Ok(());
    }
    met.push(number)?;
    Ok(())
}

/// Whether a number is there. Numbers that were met in order are at their own places, where they are looked for first.
fn is_met(met: &[u32], number: u32) -> bool
    ensures { result ≡ list_any (nat_eq number) met.now }
{
    let place = (number as usize).saturating_sub(1);
    if met.get(place) == Some(&number) {
        return true;
    }
    met.contains(&number)
}

/// Adds the numbers of a term's variables that are not there.
#[cycle(meet)]
#[tactic(auto, using(crate::proofs::Numbers::numbers_app, crate::proofs::Numbers::numbers_var, clp_model::proofs::Trees::size_app))]
fn meet(store: &Store, t: Term, met: &mut Items<u32>) -> Result<(), NoMemory>
    requires { t < length store.now }
    ensures { OnOk result (met.new ≡ distinct_after nat_eq met.old (variables (atom_at store.now t))) }
{
    match store.look(t) {
        Look::Var(number, _) => meet_number(number, met),
        Look::App(_, args) => meet_all(store, args, met),
    }
}

/// The same of several terms, in order.
#[cycle(meet)]
#[tactic(auto, using(crate::proofs::Numbers::met_more, clp_model::proofs::Trees::size_positive))]
fn meet_all(store: &Store, terms: &[Term], met: &mut Items<u32>) -> Result<(), NoMemory>
    requires { AreIn store.now terms.now }
    ensures { OnOk result (met.new ≡ distinct_after nat_eq met.old (variables_in (atoms_at store.now terms.now))) }
{
    for term in terms {
        meet(store, *term, met)?;
    }
    Ok(())
}

/// The same of a row, whose variables rise.
fn meet_row(row: &Row, met: &mut Items<u32>) -> Result<(), NoMemory>
    ensures { OnOk result (met.new ≡ distinct_after nat_eq met.old (row_variables row.now)) }
{
    for pair in row.pairs() {
        meet_number(pair.0, met)?;
    }
    Ok(())
}

/// The same of several rows, in order.
fn meet_rows(rows: &[Row], met: &mut Items<u32>) -> Result<(), NoMemory>
    ensures { OnOk result (met.new ≡ distinct_after nat_eq met.old (rows_variables rows.now)) }
{
    for row in rows {
        meet_row(row, met)?;
    }
    Ok(())
}

/// The variables of a clause with these rows, each once, by first occurrence in the head, then the body atoms and
/// then the rows.
#[tactic(auto, using(crate::proofs::Numbers::met_three))]
pub(crate) fn variables_met(
    alloc: Global,
    store: &Store,
    raw: &RawClause,
    rows: &[Row],
) -> Result<Items<u32>, NoMemory>
    requires { AreIn store.now (raw.now.head ∷ raw.now.atoms) }
    ensures { IfOk result (λ met. met ≡ variables_by_first_occurrence (raw_with store.now raw.now rows.now)) }
{
    let mut met = Items::new(alloc);
    meet(store, raw.head, &mut met)?;
    meet_all(store, raw.atoms.as_slice(), &mut met)?;
    meet_rows(rows, &mut met)?;
    Ok(met)
}
