//! The resolvent of two stored clauses.

ghost use Rattle.std.specs.Prelude.{◌≡◌, ◌<◌, None, Ok, IfOk, IfErr, IfSome, IfNone, length, slice_index_or};
ghost use Rattle.unify_model.specs.Unifying.{most_general_unifier};
ghost use Rattle.term_store.specs.Trees.{Keeps};
ghost use Rattle.unify.specs.Unifiers.{Unifies};
ghost use Rattle.substitution.specs.Weights.{IsOf, images};
ghost use Rattle.clause_model.specs.Solved.{typed_equations};
ghost use Rattle.clause_model.specs.Canonical.{new_clause};
ghost use Rattle.clause_model.specs.Load.{loaded_solved};
ghost use Rattle.clause_store.specs.Stored.{clause_in, IsStored, IsRefused};
ghost use Rattle.clause_loader.specs.Loaded.{place_in, IsStoredPlace};
ghost use Rattle.clause_loader.specs.Carried.{clause_by};
ghost use Rattle.unfold_model.specs.Resolvent as spec;
ghost use Rattle.unfold_model.specs.Resolvent.{joined_clause};
ghost use Rattle.clause_resolvent.specs.Outcome.{IsRefusedResolvent};

use crate::applying::applied;
use crate::joining::{joined, variable_count};
use crate::predicates::have_same_predicate;
use crate::raising::raised;
use clause_store::{Clause, ClauseFault, canonical};
use std::alloc::Global;
use term_store::{NoMemory, Store, Term};
use unify::{Subst, unify};

/// The atom at a place of the body.
fn body_atom(c: &Clause, place: usize) -> Term
    requires { place < length c.now.atoms }
    ensures { result ≡ slice_index_or c.now.atoms place 0 }
{
    c.atoms.as_slice()[place]
}

/// What makes the atom at a place of a clause's body equal to the head of another one, or `None` where nothing does. The
/// cost is that of a comparison where their predicates differ.
fn unifier(
    alloc: Global,
    scratch: &mut Store,
    store: &Store,
    c: &Clause,
    place: usize,
    e: &Clause,
) -> Result<Option<Subst>, NoMemory>
    requires first { IsStored store.now c.now }
    requires second { IsStored store.now e.now }
    requires place { place < length c.now.atoms }
    ensures keeps { Keeps scratch.old scratch.new }
    ensures some { IfOk result (λ r. IfSome r (λ s. Unifies (typed_equations (joined_clause (clause_in store.now c.now) place (clause_in store.now e.now)).sorts
        (joined_clause (clause_in store.now c.now) place (clause_in store.now e.now)).equations) (images scratch.new s))) }
    ensures of { IfOk result (λ r. IfSome r (λ s. IsOf scratch.new s)) }
    ensures none { IfOk result (λ r. IfNone r (most_general_unifier (typed_equations (joined_clause (clause_in store.now c.now) place (clause_in store.now e.now)).sorts
        (joined_clause (clause_in store.now c.now) place (clause_in store.now e.now)).equations) ≡ None)) }
{
    let atom = body_atom(c, place);
    if !have_same_predicate(store, atom, e.head) {
        return Ok(None);
    }
    let left = scratch.copy(store, atom)?;
    let right = raised(alloc, scratch, store, e.head, variable_count(store, c))?;
    unify(alloc, scratch, &[(left, right)])
}

/// The clauses joined at a place, with what solves its equation carried out, in canonical form.
fn resolved(
    alloc: Global,
    scratch: &mut Store,
    s: &Subst,
    store: &Store,
    c: &Clause,
    place: usize,
    e: &Clause,
) -> Result<Clause, ClauseFault>
    requires first { IsStored store.now c.now }
    requires second { IsStored store.now e.now }
    requires place { place < length c.now.atoms }
    requires of { IsOf scratch.old s.now }
    requires solved { Unifies (typed_equations (joined_clause (clause_in store.now c.now) place (clause_in store.now e.now)).sorts
        (joined_clause (clause_in store.now c.now) place (clause_in store.now e.now)).equations) (images scratch.old s.now) }
    ensures keeps { Keeps scratch.old scratch.new }
    ensures made { IfOk result (λ r. new_clause (clause_by (images scratch.old s.now) (joined_clause (clause_in store.now c.now) place (clause_in store.now e.now))) ≡ Ok (clause_in scratch.new r)) }
    ensures stored { IfOk result (λ r. IsStored scratch.new r) }
    ensures refused { IfErr result (IsRefused (clause_by (images scratch.old s.now) (joined_clause (clause_in store.now c.now) place (clause_in store.now e.now)))) }
{
    let raw = joined(alloc, scratch, store, c, place, e)?;
    let made = applied(alloc, scratch, s, &raw)?;
    canonical(alloc, scratch, &made)
}

/// The resolvent of the clause `c`, at the atom at a place of its body, counted from 0, with the clause `e`, which may be
/// `c` itself: the clause whose instances are those of `c` in which the atom is the head of an instance of `e`, and the
/// body of that instance stands in its place. The variables of `e` are renumbered past those of `c`; the equation of
/// the atom and the head is solved, and its most general unifier is carried out in the head, the rows and the atoms; the
/// result is in canonical form. `None` where the atom and the head do not unify. The terms are made in the scratch store;
/// `c` and `e` are of the store `store`.
///
/// Where the predicates of the atom and the head differ, the cost is that of their comparison; else it is near-linear in
/// the two atoms where they do not unify, and in the clauses and the resolvent where they do. No term is made that is
/// past the limits of one.
///
/// # Errors
///
/// In this order, where more than one is due:
///
/// - `Overflow` where the normal form of a row has a number of 2^63 or more in magnitude;
/// - `TooLarge` with the first limit that the canonical form is past.
pub fn resolvent(
    alloc: Global,
    scratch: &mut Store,
    store: &Store,
    c: &Clause,
    place: usize,
    e: &Clause,
) -> Result<Option<Clause>, ClauseFault>
    requires first { IsStored store.now c.now }
    requires second { IsStored store.now e.now }
    requires place { place < length c.now.atoms }
    ensures keeps { Keeps scratch.old scratch.new }
    ensures value { IfOk result (λ r. loaded_solved (spec.resolvent (clause_in store.now c.now) place (clause_in store.now e.now)) ≡ Ok (place_in scratch.new r)) }
    ensures stored { IfOk result (λ r. IsStoredPlace scratch.new r) }
    ensures refused { IfErr result (IsRefusedResolvent (spec.resolvent (clause_in store.now c.now) place (clause_in store.now e.now))) }
{
    let Some(s) = unifier(alloc, scratch, store, c, place, e)? else {
        return Ok(None);
    };
    Ok(Some(resolved(alloc, scratch, &s, store, c, place, e)?))
}
