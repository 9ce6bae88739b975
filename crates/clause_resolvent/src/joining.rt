//! Two clauses joined at an atom of the one.

ghost use Rattle.std.specs.Prelude.{◌≡◌, ◌<◌, ◌≤◌, ◌+◌, ◌++◌, take, drop, length, IfOk};
ghost use Rattle.term_store.specs.Trees.{trees_at, HaveTrees, Keeps};
ghost use Rattle.clause_store.specs.Stored.{clause_in, IsStored};
ghost use Rattle.clause_loader.specs.Carried.{typed_all};
ghost use Rattle.unfold_model.specs.Resolvent.{joined_clause};
ghost use Rattle.clause_resolvent.specs.Joined.{IsJoined};

use crate::raising::raised_all;
use crate::rows::raised_rows;
use clause_store::{Clause, RawClause, Row, copy_rows};
use clp_model::Sort;
use sqlite_items::Items;
use std::alloc::Global;
use term_store::{NoMemory, Store, Term};

/// How many variables a clause of the store has.
#[tactic(auto, using(crate::proofs::JoinedParts::few_variables))]
pub(crate) fn variable_count(_store: &Store, c: &Clause) -> u32
    requires { IsStored _store.now c.now }
    ensures value { result ≡ length c.now.sorts }
    ensures small { result ≤ 256 }
{
    c.sorts.len() as u32
}

/// The atoms before a place, as terms of the scratch store.
fn atoms_before(
    scratch: &mut Store,
    store: &Store,
    c: &Clause,
    place: usize,
) -> Result<Items<Term>, NoMemory>
    requires stored { IsStored store.now c.now }
    requires place { place < length c.now.atoms }
    ensures keeps { Keeps scratch.old scratch.new }
    ensures made { IfOk result (λ ts. HaveTrees scratch.new ts (trees_at store.now (take place c.now.atoms))) }
{
    scratch.copy_all(store, front(c.atoms.as_slice(), place))
}

/// The atoms after a place, as terms of the scratch store.
fn atoms_after(
    scratch: &mut Store,
    store: &Store,
    c: &Clause,
    place: usize,
) -> Result<Items<Term>, NoMemory>
    requires stored { IsStored store.now c.now }
    requires place { place < length c.now.atoms }
    ensures keeps { Keeps scratch.old scratch.new }
    ensures made { IfOk result (λ ts. HaveTrees scratch.new ts (trees_at store.now (drop (place + 1) c.now.atoms))) }
{
    scratch.copy_all(store, back(c.atoms.as_slice(), place))
}

/// The terms before a place.
#[tactic(auto, using(crate::proofs::JoinedParts::front_range))]
fn front(terms: &[Term], place: usize) -> &[Term]
    requires { place < length terms.now }
    ensures { result.now ≡ take place terms.now }
{
    &terms[..place]
}

/// The terms after a place.
#[tactic(auto, using(crate::proofs::JoinedParts::back_range))]
fn back(terms: &[Term], place: usize) -> &[Term]
    requires { place < length terms.now }
    ensures { result.now ≡ drop (place + 1) terms.now }
{
    &terms[place + 1..]
}

/// The lists one after another.
fn in_turn(
    mut first: Items<Term>,
    second: Items<Term>,
    third: Items<Term>,
) -> Result<Items<Term>, NoMemory>
    ensures { IfOk result (λ all. all ≡ (first ++ second) ++ third) }
{
    first.append(second)?;
    first.append(third)?;
    Ok(first)
}

/// The atoms of a clause with those of another one in the place of an atom.
fn joined_atoms(
    alloc: Global,
    scratch: &mut Store,
    store: &Store,
    c: &Clause,
    place: usize,
    e: &Clause,
) -> Result<Items<Term>, NoMemory>
    requires first { IsStored store.now c.now }
    requires second { IsStored store.now e.now }
    requires place { place < length c.now.atoms }
    ensures keeps { Keeps scratch.old scratch.new }
    ensures made { IfOk result (λ ts. HaveTrees scratch.new ts
        (typed_all (joined_clause (clause_in store.now c.now) place (clause_in store.now e.now)).sorts (joined_clause (clause_in store.now c.now) place (clause_in store.now e.now)).body)) }
{
    let start = atoms_before(scratch, store, c, place)?;
    let by = variable_count(store, c);
    let middle = raised_all(alloc, scratch, store, e.atoms.as_slice(), by)?;
    let end = atoms_after(scratch, store, c, place)?;
    in_turn(start, middle, end)
}

/// The rows of a clause, and then those of another one.
fn joined_rows(alloc: Global, store: &Store, c: &Clause, e: &Clause) -> Result<Items<Row>, NoMemory>
    requires first { IsStored store.now c.now }
    requires second { IsStored store.now e.now }
    ensures { IfOk result (λ rs. rs ≡ (joined_clause (clause_in store.now c.now) 0 (clause_in store.now e.now)).rows) }
{
    let mut rows = copy_rows(alloc, c.rows.as_slice())?;
    let more = raised_rows(alloc, e.rows.as_slice(), variable_count(store, c))?;
    rows.append(more)?;
    Ok(rows)
}

/// The sorts of the variables of a clause, and then those of another one.
fn joined_sorts(alloc: Global, c: &Clause, e: &Clause) -> Result<Items<Sort>, NoMemory>
    ensures { IfOk result (λ ss. ss ≡ c.now.sorts ++ e.now.sorts) }
{
    let mut sorts = Items::from_slice(alloc, c.sorts.as_slice())?;
    let more = Items::from_slice(alloc, e.sorts.as_slice())?;
    sorts.append(more)?;
    Ok(sorts)
}

/// The clause in which the body of another one, whose variables are renumbered past those of the first, stands in the
/// place of an atom, and the rows of the other follow.
pub(crate) fn joined(
    alloc: Global,
    scratch: &mut Store,
    store: &Store,
    c: &Clause,
    place: usize,
    e: &Clause,
) -> Result<RawClause, NoMemory>
    requires first { IsStored store.now c.now }
    requires second { IsStored store.now e.now }
    requires place { place < length c.now.atoms }
    ensures keeps { Keeps scratch.old scratch.new }
    ensures joined { IfOk result (λ raw. IsJoined scratch.new raw (joined_clause (clause_in store.now c.now) place (clause_in store.now e.now))) }
{
    let head = scratch.copy(store, c.head)?;
    let atoms = joined_atoms(alloc, scratch, store, c, place, e)?;
    let rows = joined_rows(alloc, store, c, e)?;
    let sorts = joined_sorts(alloc, c, e)?;
    Ok(RawClause {
        head,
        rows,
        atoms,
        sorts,
    })
}
