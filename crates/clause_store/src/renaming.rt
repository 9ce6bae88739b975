//! Terms with their variables numbered by place in a list.

ghost use Rattle.std.specs.Prelude.{◌≡◌, ◌+◌, ◌↔◌, IsTrue, EachIndex, slice_index, ◌<◌, ◌≤◌, ◌∷◌, length, map, IfOk};
ghost use Rattle.clp_model.specs.declared.tree.Tree.{App};
ghost use Rattle.clp_model.specs.Trees.{mapped, mapped_all};
ghost use Rattle.clp_model.specs.Clauses.{sort_in};
ghost use Rattle.clp_model.specs.Canonical.{place_in};
ghost use Rattle.term_store.specs.Trees.{tree_at, trees_at, AreIn, HasTree, HaveTrees, Keeps, IsSmall};
ghost use Rattle.clause_store.specs.Stored.{renumber};

use clp_model::{Name, Sort};
use sqlite_items::Items;
use std::alloc::Global;
use term_store::{Look, NoMemory, Store, Term, TermFault};

/// The place of a number, from 1.
#[tactic(auto, using(crate::proofs::Places::place_step, crate::proofs::Places::place_end))]
fn place_in(met: &[u32], number: u32) -> u32
    requires { length met.now ≤ 256 }
    ensures { result ≡ place_in met.now number }
{
    let mut place = 1;
    for m in met {
        if *m == number {
            return place;
        }
        place += 1;
    }
    place
}

/// Whether the numbers are 1, 2, 3 and so on, so that each is its own place.
pub(crate) fn is_in_order(met: &[u32]) -> bool
    ensures { IsTrue result ↔ EachIndex met.now (λ k. slice_index met.now k ≡ k + 1) }
{
    for (i, m) in met.iter().enumerate() {
        if *m as usize != i + 1 {
            return false;
        }
    }
    true
}

/// The application, which is known to be within the limits.
fn application(store: &mut Store, name: &str, args: &[Term]) -> Result<Term, NoMemory>
    requires within { AreIn store.old args.now }
    requires small { IsSmall (App name.now (trees_at store.old args.now)) }
    ensures keeps { Keeps store.old store.new }
    ensures made { IfOk result (λ t. HasTree store.new t (App name.now (trees_at store.old args.now))) }
{
    match store.app(name, args) {
        Ok(t) => Ok(t),
        Err(TermFault::TooLarge) => unreachable!(),
        Err(TermFault::NoMemory) => Err(NoMemory),
    }
}

/// The term with each variable numbered by its place in `met`.
#[cycle(renamed)]
#[tactic(auto, using(crate::proofs::Terms::renamed_var, crate::proofs::Terms::renamed_app, crate::proofs::Terms::small_app, clp_model::proofs::Trees::size_app))]
pub(crate) fn renamed(
    alloc: Global,
    store: &mut Store,
    t: Term,
    met: &[u32],
) -> Result<Term, NoMemory>
    requires within { t < length store.old }
    requires few { length met.now ≤ 256 }
    ensures keeps { Keeps store.old store.new }
    ensures made { IfOk result (λ r. HasTree store.new r (mapped (renumber met.now) (tree_at store.old t))) }
{
    match store.look(t) {
        Look::Var(number, sort) => store.var(place_in(met, number), sort),
        Look::App(name, args) => {
            let name = Name::copy_of(alloc, name)?;
            let args = Items::from_slice(alloc, args)?;
            let renamed = renamed_all(alloc, store, args.as_slice(), met)?;
            application(store, name.as_str(), renamed.as_slice())
        }
    }
}

/// The same of several terms, in order.
#[cycle(renamed)]
pub(crate) fn renamed_all(
    alloc: Global,
    store: &mut Store,
    terms: &[Term],
    met: &[u32],
) -> Result<Items<Term>, NoMemory>
    requires within { AreIn store.old terms.now }
    requires few { length met.now ≤ 256 }
    ensures keeps { Keeps store.old store.new }
    ensures made { IfOk result (λ rs. HaveTrees store.new rs (mapped_all (renumber met.now) (trees_at store.old terms.now))) }
{
    let mut all = Items::new(alloc);
    for term in terms {
        let one = renamed(alloc, store, *term, met)?;
        all.push(one)?;
    }
    Ok(all)
}

/// The sort of the variable of this number; numbers count from 1, and one that has no sort there has `Any`.
pub fn sort_in(sorts: &[Sort], number: u32) -> Sort
    ensures value { result ≡ sort_in sorts.now number }
{
    if number == 0 {
        return Sort::Any;
    }
    sorts.get(number as usize - 1).copied().unwrap_or(Sort::Any)
}

/// The sorts of the variables in `met`, in their order.
pub fn sorts_of(alloc: Global, sorts: &[Sort], met: &[u32]) -> Result<Items<Sort>, NoMemory>
    ensures { IfOk result (λ found. found ≡ map (sort_in sorts.now) met.now) }
{
    let mut found = Items::new(alloc);
    for number in met {
        found.push(sort_in(sorts, *number))?;
    }
    Ok(found)
}
