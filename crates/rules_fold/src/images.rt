//! What the variables of a definition become in a clause that is folded by it.

ghost use Rattle.std.specs.Prelude.{◌≡◌, ◌⊎◌, Some, None, OnOk, IfOk, IfErr};
ghost use Rattle.clause_store.specs.Stored.{clause_in, IsStored};
ghost use Rattle.map_model.specs.declared.refusal.Refusal.TheVariants.{NoMemory};
ghost use Rattle.map_model.specs.Folding as spec;
ghost use Rattle.rules_fold.specs.Conditions.{clause_broken, given_broken, AreMade, AreAllowed};

use crate::conditions::{atoms_broken, given_broken, lost_or_many_broken};
use clause_fold::{images, matched};
use clause_store::Clause;
use map_state::Refusal;
use sqlite_items::Items;
use std::alloc::Global;
use term_store::{Store, Term};

/// What the variables of a definition become, in the order of their numbers: terms of a store of their own.
#[derive(Drop)]
pub(crate) struct Images {
    pub(crate) scratch: Store,
    pub(crate) terms: Items<Term>,
}

/// What the variables of the definition `n` become in the clause `c`, as far as the conditions go that can be tested
/// without them.
fn made(
    alloc: Global,
    store: &Store,
    n: &Clause,
    c: &Clause,
    at: &[u32],
    with: &[u32],
    keep: &[u32],
) -> Result<Images, Refusal>
    requires definition { IsStored store.now n.now }
    requires clause { IsStored store.now c.now }
    ensures made { IfOk result (λ i. AreMade i.scratch i.terms (clause_in store.now n.now) (clause_in store.now c.now) at.now with.now) }
    ensures atoms { OnOk result (spec.atoms_broken (clause_in store.now c.now) at.now ≡ None) }
    ensures given { OnOk result (given_broken (clause_in store.now n.now) (clause_in store.now c.now) with.now keep.now ≡ None) }
    ensures refused { IfErr result (λ e. (e ≡ NoMemory) ⊎ (clause_broken (clause_in store.now n.now) (clause_in store.now c.now) at.now with.now keep.now ≡ Some e)) }
{
    if let Some(refusal) = atoms_broken(store, c, at) {
        return Err(refusal);
    }
    let mut scratch = Store::new(alloc);
    let Some(s) = matched(alloc, &mut scratch, store, n, c, at)? else {
        return Err(Refusal::NoMatch);
    };
    if let Some(refusal) = given_broken(alloc, store, n, c, with, keep)? {
        return Err(refusal);
    }
    let terms = images(alloc, &mut scratch, store, n, c, &s, with)?;
    Ok(Images { scratch, terms })
}

/// What the variables of the definition `n` become in the clause `c` where no condition is broken, or the first that is.
pub(crate) fn allowed(
    alloc: Global,
    store: &Store,
    n: &Clause,
    c: &Clause,
    at: &[u32],
    with: &[u32],
    keep: &[u32],
) -> Result<Images, Refusal>
    requires definition { IsStored store.now n.now }
    requires clause { IsStored store.now c.now }
    ensures allowed { IfOk result (λ i. AreAllowed i.scratch i.terms (clause_in store.now n.now) (clause_in store.now c.now) at.now with.now keep.now) }
    ensures refused { IfErr result (λ e. (e ≡ NoMemory) ⊎ (clause_broken (clause_in store.now n.now) (clause_in store.now c.now) at.now with.now keep.now ≡ Some e)) }
{
    let images = made(alloc, store, n, c, at, with, keep)?;
    let terms = images.terms.as_slice();
    match lost_or_many_broken(alloc, store, n, c, &images.scratch, terms, at, keep)? {
        Some(refusal) => Err(refusal),
        None => Ok(images),
    }
}
