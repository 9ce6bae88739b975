//! The term in which each variable has its image.

ghost use Rattle.std.specs.Prelude.{◌≡◌, ◌<◌, ◌↔◌, ℕ, List, length, Some, IfOk, OnOk, IsErrOf, IsTrue};
ghost use Rattle.clp_model.specs.declared.tree.Tree.{App};
ghost use Rattle.term_store.specs.Trees.{tree_at, trees_at, variable, AreIn, HasTree, HaveTrees, Keeps, IsSmall, IsTooLarge};
ghost use Rattle.unify_model.specs.Substituting.{substituted, substituted_all};
ghost use Rattle.substitution.specs.Bindings.{variable_of};
ghost use Rattle.substitution.specs.Images.{images_of, AreImages};
ghost use Rattle.substitution.specs.Weights.{IsOf, images};
ghost use Rattle.substitution.specs.Made.{AreMade, IsPastAny};

use crate::images::{Images, Kind};
use crate::subst::Subst;
use crate::weighing::weigh;
use clp_model::{Name, Sort};
use sqlite_items::Items;
use std::alloc::Global;
use std::collections::HashMap;
use term_store::{Look, Store, Term, TermFault};

/// The term in which each variable has its image. Each application of the store is made once, however often it is met, and
/// one none of whose arguments changes stays the term that it is. `TooLarge` exactly where the size of the result exceeds
/// 4,096 or its depth 256: it comes before anything is made, so that the store is as it was.
#[tactic(auto, using(crate::proofs::Weighed::not_large))]
pub fn apply(store: &mut Store, s: &Subst, t: Term) -> Result<Term, TermFault>
    requires within { t < length store.old }
    requires of { IsOf store.old s.now }
    ensures keeps { Keeps store.old store.new }
    ensures value { IfOk result (λ r. HasTree store.new r (substituted (images store.old s.now) (tree_at store.old t))) }
    ensures small { OnOk result (IsSmall (substituted (images store.old s.now) (tree_at store.old t))) }
    ensures large { IsErrOf result TermFault.TooLarge → IsTooLarge (substituted (images store.old s.now) (tree_at store.old t)) }
    ensures unchanged { IsErrOf result TermFault.TooLarge → store.new ≡ store.old }
{
    let mut noted = HashMap::new(s.alloc);
    let weight = weigh(store, &s.images, s.weights.as_slice(), &mut noted, t)?;
    if weight.is_none() {
        return Err(TermFault::TooLarge);
    }
    let mut made = HashMap::new(s.alloc);
    build(s.alloc, store, &s.images, &mut made, t)
}

/// What a variable, which is a term already, becomes.
#[cycle(build)]
fn build_variable(
    alloc: Global,
    store: &mut Store,
    images: &Images,
    made: &mut HashMap<Term, Term>,
    t: Term,
    number: u32,
    sort: Sort,
) -> Result<Term, TermFault>
    requires within { t < length store.old }
    requires is { tree_at store.old t ≡ variable number sort }
    requires of { AreImages store.old images.now }
    requires made { AreMade store.old images.now made.old }
    ensures keeps { Keeps store.old store.new }
    ensures value { IfOk result (λ r. HasTree store.new r (images_of store.old images.now (variable_of number sort))) }
    ensures made { OnOk result (AreMade store.new images.now made.new) }
    ensures large { IsErrOf result TermFault.TooLarge → IsTooLarge (images_of store.old images.now (variable_of number sort)) }
{
    let Some(place) = images.bindings.find(number, sort) else {
        return Ok(t);
    };
    let term = images.bindings.at(place).term;
    match images.kind {
        Kind::AtOnce => Ok(term),
        Kind::InTurn => build(alloc, store, images, made, term),
    }
}

#[cycle(build)]
fn build(
    alloc: Global,
    store: &mut Store,
    images: &Images,
    made: &mut HashMap<Term, Term>,
    t: Term,
) -> Result<Term, TermFault>
    requires within { t < length store.old }
    requires of { AreImages store.old images.now }
    requires made { AreMade store.old images.now made.old }
    ensures keeps { Keeps store.old store.new }
    ensures value { IfOk result (λ r. HasTree store.new r (substituted (images_of store.old images.now) (tree_at store.old t))) }
    ensures made { OnOk result (AreMade store.new images.now made.new) }
    ensures large { IsErrOf result TermFault.TooLarge → IsTooLarge (substituted (images_of store.old images.now) (tree_at store.old t)) }
{
    match store.look(t) {
        Look::Var(number, sort) => build_variable(alloc, store, images, made, t, number, sort),
        Look::App(name, args) => {
            if let Some(r) = made.get(&t) {
                return Ok(*r);
            }
            let name = Name::copy_of(alloc, name)?;
            let args = Items::from_slice(alloc, args)?;
            let built = match build_all(alloc, store, images, made, args.as_slice()) {
                Ok(built) => built,
                Err(e) => return Err(e),
            };
            let r = match renewed(store, t, name.as_str(), args.as_slice(), built.as_slice()) {
                Ok(r) => r,
                Err(e) => return Err(e),
            };
            made.insert(t, r)?;
            Ok(r)
        }
    }
}

/// The same of several terms, in order.
#[cycle(build)]
fn build_all(
    alloc: Global,
    store: &mut Store,
    images: &Images,
    made: &mut HashMap<Term, Term>,
    terms: &[Term],
) -> Result<Items<Term>, TermFault>
    requires within { AreIn store.old terms.now }
    requires of { AreImages store.old images.now }
    requires made { AreMade store.old images.now made.old }
    ensures keeps { Keeps store.old store.new }
    ensures value { IfOk result (λ rs. HaveTrees store.new rs (substituted_all (images_of store.old images.now) (trees_at store.old terms.now))) }
    ensures made { OnOk result (AreMade store.new images.now made.new) }
    ensures large { IsErrOf result TermFault.TooLarge → IsPastAny (substituted_all (images_of store.old images.now) (trees_at store.old terms.now)) }
{
    let mut all = Items::new(alloc);
    for term in terms {
        let one = match build(alloc, store, images, made, *term) {
            Ok(one) => one,
            Err(e) => return Err(e),
        };
        all.push(one)?;
    }
    Ok(all)
}

/// An application with other arguments: the term itself where they are the same.
fn renewed(
    store: &mut Store,
    t: Term,
    name: &str,
    args: &[Term],
    built: &[Term],
) -> Result<Term, TermFault>
    requires within { t < length store.old }
    requires is { tree_at store.old t ≡ App name.now (trees_at store.old args.now) }
    requires built { AreIn store.old built.now }
    ensures keeps { Keeps store.old store.new }
    ensures value { IfOk result (λ r. HasTree store.new r (App name.now (trees_at store.old built.now))) }
    ensures large { IsErrOf result TermFault.TooLarge → IsTooLarge (App name.now (trees_at store.old built.now)) }
{
    if args == built {
        return Ok(t);
    }
    store.app(name, built)
}
