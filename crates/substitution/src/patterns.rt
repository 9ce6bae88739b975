//! One-sided matching.

ghost use Rattle.std.specs.Prelude.{◌≡◌, ◌<◌, ℕ, List, [], ◌∷◌, length, IfOk, IfSome, IfNone, IsTrue, ◌↔◌};
ghost use Rattle.clp_model.specs.Trees.{variables, variables_in};
ghost use Rattle.term_store.specs.Trees.{tree_at, trees_at, AreIn};
ghost use Rattle.unify_model.specs.Substituting.{substituted, substituted_all};
ghost use Rattle.unify_model.specs.Matching.{takes, IsMatching, HasNoMatching};
ghost use Rattle.substitution.specs.Bindings.{variable_of};
ghost use Rattle.substitution.specs.Weights.{IsOf, images};
ghost use Rattle.substitution.specs.Found.{AreFound, MetIf};

use crate::bindings::{Bindings, Bound};
use crate::subst::Subst;
use clp_model::Sort;
use std::alloc::Global;
use term_store::{Look, NoMemory, Store, Term};

/// The substitution that makes the targets of the patterns, in order, or `None` where no substitution that respects
/// sorts does: a Num variable goes to a Num variable, and an Any variable to any term. The variables of the targets are
/// constants, also where the patterns hold the same numbers, so that the images are put in at once.
pub fn matching(
    alloc: Global,
    store: &Store,
    patterns: &[Term],
    targets: &[Term],
) -> Result<Option<Subst>, NoMemory>
    requires patterns { AreIn store.now patterns.now }
    requires targets { AreIn store.now targets.now }
    ensures of { IfOk result (λ r. IfSome r (λ s. IsOf store.now s)) }
    ensures some { IfOk result (λ r. IfSome r (λ s. IsMatching (trees_at store.now patterns.now) (trees_at store.now targets.now) (images store.now s))) }
    ensures none { IfOk result (λ r. IfNone r (HasNoMatching (trees_at store.now patterns.now) (trees_at store.now targets.now))) }
{
    let mut found = Bindings::new(alloc);
    if !meet_all(store, &mut found, patterns, targets)? {
        return Ok(None);
    }
    let s = Subst::at_once(alloc, store, found)?;
    Ok(Some(s))
}

/// Whether a variable of this sort may become this term.
fn may_become(store: &Store, sort: Sort, t: Term) -> bool
    requires { t < length store.now }
    ensures { result ≡ takes sort (tree_at store.now t) }
{
    match sort {
        Sort::Any => true,
        Sort::Num => match store.look(t) {
            Look::Var(_, sort) => sort == Sort::Num,
            Look::App(_, _) => false,
        },
    }
}

fn same_name(name: &str, other: &str) -> bool
    ensures { IsTrue result ↔ (name.now ≡ other.now) }
{
    name == other
}

/// Whether the variable may become the target, beside what was found: then it is found.
fn meet_variable(
    store: &Store,
    found: &mut Bindings,
    number: u32,
    sort: Sort,
    target: Term,
) -> Result<bool, NoMemory>
    requires target { target < length store.now }
    requires found { AreFound store.now found.old }
    ensures { IfOk result (λ met. MetIf met store.now (variable_of number sort ∷ []) found.old found.new (λ f. f (variable_of number sort) ≡ tree_at store.now target)) }
{
    match found.find(number, sort) {
        Some(place) => {
            let term = found.at(place).term;
            Ok(store.same(term, target))
        }
        None => {
            if !may_become(store, sort, target) {
                return Ok(false);
            }
            let term = target;
            found.push(Bound { number, sort, term })?;
            Ok(true)
        }
    }
}

/// Whether the pattern may become the target, beside what was found: then what its variables become is found.
#[cycle(meet)]
fn meet(store: &Store, found: &mut Bindings, pattern: Term, target: Term) -> Result<bool, NoMemory>
    requires pattern { pattern < length store.now }
    requires target { target < length store.now }
    requires found { AreFound store.now found.old }
    ensures { IfOk result (λ met. MetIf met store.now (variables (tree_at store.now pattern)) found.old found.new (λ f. substituted f (tree_at store.now pattern) ≡ tree_at store.now target)) }
{
    match store.look(pattern) {
        Look::Var(number, sort) => {
            let met = meet_variable(store, found, number, sort, target)?;
            Ok(met)
        }
        Look::App(name, patterns) => match store.look(target) {
            Look::App(other, targets) => {
                if !same_name(name, other) {
                    return Ok(false);
                }
                let met = meet_all(store, found, patterns, targets)?;
                Ok(met)
            }
            Look::Var(_, _) => Ok(false),
        },
    }
}

/// The same of patterns and targets in order.
#[cycle(meet)]
fn meet_all(
    store: &Store,
    found: &mut Bindings,
    patterns: &[Term],
    targets: &[Term],
) -> Result<bool, NoMemory>
    requires patterns { AreIn store.now patterns.now }
    requires targets { AreIn store.now targets.now }
    requires found { AreFound store.now found.old }
    ensures { IfOk result (λ met. MetIf met store.now (variables_in (trees_at store.now patterns.now)) found.old found.new (λ f. substituted_all f (trees_at store.now patterns.now) ≡ trees_at store.now targets.now)) }
{
    if patterns.len() != targets.len() {
        return Ok(false);
    }
    for i in 0..patterns.len() {
        let met = meet(store, found, patterns[i], targets[i])?;
        if !met {
            return Ok(false);
        }
    }
    Ok(true)
}
