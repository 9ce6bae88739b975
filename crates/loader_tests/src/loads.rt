//! What a program is loaded as: the text of its clauses and its predicates. The source of each clause is loaded again.

ghost use Rattle.std.specs.Prelude.{◌≡◌, ◌<◌, ◌^◌, All, length};
ghost use Rattle.clause_store.specs.Stored.{IsStored};
ghost use Rattle.clause_loader.specs.Loaded.{AreStored, IsStoredPlace};

use crate::formed::are_well_formed;
use clause_loader::{LoadFault, Loaded, load, load_one};
use clause_printer::{name_text, print_clause};
use clause_source::source_of;
use clause_store::{Clause, ClauseFault, Pred, SourceClause, copy_clause, variant};
use itoa::Buffer;
use std::alloc::Global;
use term_store::{NoMemory, Store};

/// Appends the text of a clause, and `-` for an empty place.
fn push_place(
    alloc: Global,
    store: &Store,
    place: &Option<Clause>,
    into: &mut String,
) -> Result<(), NoMemory>
    requires { IsStoredPlace store.now place.now }
{
    match place {
        Some(c) => print_clause(alloc, store, c, into),
        None => {
            into.push_str("-\n")?;
            Ok(())
        }
    }
}

/// Appends predicates, as in `p/1 q/2`.
fn push_predicates(preds: &[Pred], into: &mut String) -> Result<(), NoMemory> {
    for (i, pred) in preds.iter().enumerate() {
        if i > 0 {
            into.push_str(" ")?;
        }
        name_text(pred.name.as_str(), into)?;
        into.push_str("/")?;
        into.push_str(Buffer::new().format(pred.arity))?;
    }
    Ok(())
}

/// The text of each clause, and then the predicates.
fn text_of(alloc: Global, loaded: &Loaded) -> Result<String, NoMemory>
    requires { AreStored loaded.now.store loaded.now.clauses.items }
{
    let mut text = String::new(alloc);
    for place in loaded.clauses.as_slice() {
        push_place(alloc, &loaded.store, place, &mut text)?;
    }
    push_predicates(loaded.preds.as_slice(), &mut text)?;
    Ok(text)
}

/// The text of a clause.
fn clause_text(alloc: Global, store: &Store, c: &Clause) -> Result<String, NoMemory>
    requires { IsStored store.now c.now }
{
    let mut text = String::new(alloc);
    print_clause(alloc, store, c, &mut text)?;
    Ok(text)
}

/// Whether the source of a clause is loaded as the clause again.
fn is_again(alloc: Global, store: &Store, c: &Clause) -> Result<bool, ClauseFault>
    requires { IsStored store.now c.now }
{
    let source = source_of(alloc, store, c)?;
    let mut fresh = Store::new(alloc);
    let copy = copy_clause(alloc, &mut fresh, store, c)?;
    let Some(again) = load_one(alloc, &mut fresh, &source)? else {
        return Ok(false);
    };
    let first = clause_text(alloc, &fresh, &copy)?;
    let second = clause_text(alloc, &fresh, &again)?;
    Ok(variant(&fresh, &copy, &again) && first.as_str() == second.as_str())
}

/// Whether this holds of each clause.
fn are_again(alloc: Global, loaded: &Loaded) -> Result<bool, ClauseFault>
    requires { AreStored loaded.now.store loaded.now.clauses.items }
{
    for place in loaded.clauses.as_slice() {
        if let Some(c) = place {
            if !is_again(alloc, &loaded.store, c)? {
                return Ok(false);
            }
        }
    }
    Ok(true)
}

/// Whether loading gives these clauses and predicates, whose sources are loaded as the clauses again, or this fault.
pub fn gives(
    alloc: Global,
    sources: &[SourceClause],
    wanted: &Result<&'static str, LoadFault>,
) -> Result<bool, ClauseFault> {
    if sources.len() > u32::MAX as usize {
        return Ok(false);
    }
    if !are_well_formed(sources) {
        return Ok(false);
    }
    match (load(alloc, sources), wanted) {
        (Ok(loaded), Ok(text)) => {
            let found = text_of(alloc, &loaded)?;
            Ok(found.as_str() == *text && are_again(alloc, &loaded)?)
        }
        (Err(fault), Err(wanted)) => Ok(fault == *wanted),
        _ => Ok(false),
    }
}

/// Whether loading ends with this fault, or with none; then the sources of the clauses are loaded as these again.
pub fn gives_fault(
    alloc: Global,
    sources: &[SourceClause],
    wanted: Option<LoadFault>,
) -> Result<bool, ClauseFault> {
    if sources.len() > u32::MAX as usize {
        return Ok(false);
    }
    if !are_well_formed(sources) {
        return Ok(false);
    }
    match load(alloc, sources) {
        Ok(loaded) => Ok(wanted.is_none() && are_again(alloc, &loaded)?),
        Err(fault) => Ok(wanted == Some(fault)),
    }
}
