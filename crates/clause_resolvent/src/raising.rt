//! Copies of terms whose variables are renumbered past those of another clause.

ghost use Rattle.std.specs.Prelude.{◌≡◌, ◌<◌, ◌≤◌, All, length, IfOk};
ghost use Rattle.clp_model.specs.declared.tree.Tree.{App};
ghost use Rattle.clp_model.specs.Trees.{mapped, mapped_all, variables, variables_in};
ghost use Rattle.term_store.specs.Trees.{tree_at, trees_at, AreIn, HasTree, HaveTrees, Keeps, IsSmall};
ghost use Rattle.clause_resolvent.specs.Raised.{raise, AreLow};

use sqlite_items::Items;
use std::alloc::Global;
use term_store::{Look, NoMemory, Store, Term, TermFault};

/// The application, which is known to be within the limits.
fn application(store: &mut Store, name: &str, args: &[Term]) -> Result<Term, NoMemory>
    requires within { AreIn store.old args.now }
    requires small { IsSmall (App name.now (trees_at store.old args.now)) }
    ensures keeps { Keeps store.old store.new }
    ensures made { IfOk result (λ t. HasTree store.new t (App name.now (trees_at store.old args.now))) }
{
    match store.app(name, args) {
        Ok(t) => Ok(t),
        Err(TermFault::TooLarge) => unreachable!(),
        Err(TermFault::NoMemory) => Err(NoMemory),
    }
}

/// A term of the store `to` with the tree of a term of the store `from`, in which the number of each variable is
/// greater by `by`.
#[cycle(raised)]
#[tactic(auto, using(crate::proofs::RaisedTerms::raised_var, crate::proofs::RaisedTerms::low_var, crate::proofs::RaisedTerms::low_app, clp_model::proofs::Trees::size_app))]
pub(crate) fn raised(
    alloc: Global,
    to: &mut Store,
    from: &Store,
    t: Term,
    by: u32,
) -> Result<Term, NoMemory>
    requires within { t < length from.now }
    requires few { by ≤ 256 }
    requires low { AreLow (variables (tree_at from.now t)) }
    ensures keeps { Keeps to.old to.new }
    ensures made { IfOk result (λ r. HasTree to.new r (mapped (raise by) (tree_at from.now t))) }
{
    match from.look(t) {
        Look::Var(number, sort) => to.var(by + number, sort),
        Look::App(name, args) => {
            let raised = raised_all(alloc, to, from, args, by)?;
            application(to, name, raised.as_slice())
        }
    }
}

/// The same of several terms, in order.
#[cycle(raised)]
#[tactic(auto, using(substitution::proofs::Weighed::item_in, substitution::proofs::Weighed::item_size, crate::proofs::RaisedTerms::low_item))]
pub(crate) fn raised_all(
    alloc: Global,
    to: &mut Store,
    from: &Store,
    terms: &[Term],
    by: u32,
) -> Result<Items<Term>, NoMemory>
    requires within { AreIn from.now terms.now }
    requires few { by ≤ 256 }
    requires low { AreLow (variables_in (trees_at from.now terms.now)) }
    ensures keeps { Keeps to.old to.new }
    ensures made { IfOk result (λ rs. HaveTrees to.new rs (mapped_all (raise by) (trees_at from.now terms.now))) }
{
    let mut all = Items::new(alloc);
    for term in terms {
        let one = raised(alloc, to, from, *term, by)?;
        all.push(one)?;
    }
    Ok(all)
}
