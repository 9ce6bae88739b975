//! What the variables of a definition become in a clause that is folded by it.

ghost use Rattle.std.specs.Prelude.{◌≡◌, ◌<◌, None, ℕ, List, length, IfOk, IfSome, IfNone};
ghost use Rattle.term_store.specs.Trees.{HasTree, Keeps};
ghost use Rattle.substitution.specs.Bindings.{variable_of};
ghost use Rattle.substitution.specs.Weights.{IsOf, images};
ghost use Rattle.clause_store.specs.Stored.{clause_in, IsStored};
ghost use Rattle.fold_model.specs.Positions.{first_outside};
ghost use Rattle.fold_model.specs.Images.{matched_atoms, bad_with, all_bindings, image_in};
ghost use Rattle.clause_fold.specs.Images.{IsMatched, AreSmall, AreImages, Become};

use crate::definitions::body_marks;
use crate::parts::at_positions;
use clause_store::{Clause, sort_in};
use clp_model::Sort;
use sqlite_items::Items;
use std::alloc::Global;
use substitution::{Subst, apply, matching};
use term_store::{NoMemory, Store, Term, TermFault};

/// What the variables of the definition's atoms become where these are, in order, the clause's atoms at the positions: a
/// Num variable becomes a Num variable, an Any variable any term. `None` where there is no such substitution. It is one
/// of the scratch store, and near-linear in the atoms.
pub fn matched(
    alloc: Global,
    scratch: &mut Store,
    store: &Store,
    n: &Clause,
    c: &Clause,
    at: &[u32],
) -> Result<Option<Subst>, NoMemory>
    requires definition { IsStored store.now n.now }
    requires clause { IsStored store.now c.now }
    requires positions { first_outside (length c.now.atoms) at.now ≡ None }
    ensures keeps { Keeps scratch.old scratch.new }
    ensures of { IfOk result (λ r. IfSome r (λ s. IsOf scratch.new s)) }
    ensures some { IfOk result (λ r. IfSome r (λ s. IsMatched scratch.new s (clause_in store.now n.now) (clause_in store.now c.now) at.now)) }
    ensures small { IfOk result (λ r. IfSome r (λ s. AreSmall (images scratch.new s))) }
    ensures none { IfOk result (λ r. IfNone r (matched_atoms (clause_in store.now n.now) (clause_in store.now c.now) at.now ≡ None)) }
{
    let patterns = scratch.copy_all(store, n.atoms.as_slice())?;
    let atoms = at_positions(alloc, c.atoms.as_slice(), at)?;
    let targets = scratch.copy_all(store, atoms.as_slice())?;
    matching(alloc, scratch, patterns.as_slice(), targets.as_slice())
}

/// The term that the variable becomes.
fn image(scratch: &mut Store, s: &Subst, number: u32, sort: Sort) -> Result<Term, NoMemory>
    requires of { IsOf scratch.old s.now }
    requires small { AreSmall (images scratch.old s.now) }
    ensures keeps { Keeps scratch.old scratch.new }
    ensures made { IfOk result (λ t. HasTree scratch.new t (images scratch.old s.now (variable_of number sort))) }
{
    let variable = scratch.var(number, sort)?;
    match apply(scratch, s, variable) {
        Ok(image) => Ok(image),
        Err(TermFault::TooLarge) => unreachable!(),
        Err(TermFault::NoMemory) => Err(NoMemory),
    }
}

/// The terms of what the definition's variables become, in the order of their numbers: those of its atoms by what was
/// matched, and the others the named variables, in order.
pub fn images(
    alloc: Global,
    scratch: &mut Store,
    store: &Store,
    n: &Clause,
    c: &Clause,
    s: &Subst,
    with: &[u32],
) -> Result<Items<Term>, NoMemory>
    requires definition { IsStored store.now n.now }
    requires clause { IsStored store.now c.now }
    requires of { IsOf scratch.old s.now }
    requires small { AreSmall (images scratch.old s.now) }
    requires matched { (at : List ℕ) × IsMatched scratch.old s.now (clause_in store.now n.now) (clause_in store.now c.now) at }
    requires named { bad_with (clause_in store.now n.now) (clause_in store.now c.now) with.now ≡ None }
    ensures keeps { Keeps scratch.old scratch.new }
    ensures are { IfOk result (λ ts. AreImages scratch.new ts (length n.now.sorts) c.now.sorts) }
    ensures trees { IfOk result (λ ts. (at : List ℕ) (m : IsMatched scratch.old s.now (clause_in store.now n.now) (clause_in store.now c.now) at)
        → Become scratch.new ts (image_in (clause_in store.now n.now) (all_bindings (clause_in store.now n.now) (clause_in store.now c.now) with.now m.bindings))) }
{
    let body = body_marks(alloc, store, n)?;
    let mut terms = Items::new(alloc);
    let mut named = 0;
    for i in 0..n.sorts.len() {
        let number = i as u32 + 1;
        if body.has(number) {
            let sort = sort_in(n.sorts.as_slice(), number);
            terms.push(image(scratch, s, number, sort)?)?;
        } else {
            let sort = sort_in(c.sorts.as_slice(), with[named]);
            terms.push(scratch.var(with[named], sort)?)?;
            named += 1;
        }
    }
    Ok(terms)
}
