//! Terms of the trees of a source clause.

ghost use Rattle.std.specs.Prelude.{◌≡◌, true, false, IfOk, OnOk, IsErrOf};
ghost use Rattle.clp_model.specs.Trees.{size, depth, total_size, greatest_depth};
ghost use Rattle.clause_model.specs.Solved.{typed, typed_equations};
ghost use Rattle.clause_model.specs.Load.{any_side_large, is_large};
ghost use Rattle.term_store.specs.Trees.{HasTree, HaveTrees, IsOver, Keeps};
ghost use Rattle.clause_loader.specs.Carried.{typed_all, HaveEquations};

use clause_store::sort_in;
use clp_model::{Sort, Tree};
use smallvec::SmallVec;
use std::alloc::Global;
use term_store::{Store, Term, TermFault};

/// How many terms lie in the list itself, without memory of their own.
const INLINE: usize = 8;

/// The term of a tree. `TooLarge` exactly where the tree is past the limits of a term.
#[cycle(term_of)]
#[tactic(auto, using(clp_model::proofs::Trees::mapped_app, clp_model::proofs::Trees::mapped_var, clp_model::proofs::Trees::size_app, clp_model::proofs::Trees::depth_app))]
pub(crate) fn term_of(
    alloc: Global,
    store: &mut Store,
    sorts: &[Sort],
    tree: &Tree,
) -> Result<Term, TermFault>
    ensures keeps { Keeps store.old store.new }
    ensures made { IfOk result (λ t. HasTree store.new t (typed sorts.now tree.now)) }
    ensures large { IsErrOf result TermFault.TooLarge → IsOver (size tree.now) (depth tree.now) }
{
    match tree {
        Tree::Var(number) => Ok(store.var(*number, sort_in(sorts, *number))?),
        Tree::App(name, args) => {
            let terms = terms_of(alloc, store, sorts, args.as_slice())?;
            store.app(name.as_str(), terms.as_slice())
        }
    }
}

#[cycle(term_of)]
fn terms_of(
    alloc: Global,
    store: &mut Store,
    sorts: &[Sort],
    trees: &[Tree],
) -> Result<SmallVec<Term, INLINE>, TermFault>
    ensures keeps { Keeps store.old store.new }
    ensures made { IfOk result (λ terms. HaveTrees store.new terms.items (typed_all sorts.now trees.now)) }
    ensures large { IsErrOf result TermFault.TooLarge → IsOver (total_size trees.now) (greatest_depth trees.now) }
{
    let mut terms = SmallVec::new(alloc);
    for tree in trees {
        let term = term_of(alloc, store, sorts, tree)?;
        terms.push(term)?;
    }
    Ok(terms)
}

/// The term of a side, which is within the limits of a term where there is one.
fn side_of(alloc: Global, store: &mut Store, sorts: &[Sort], tree: &Tree) -> Result<Term, TermFault>
    ensures keeps { Keeps store.old store.new }
    ensures made { IfOk result (λ t. HasTree store.new t (typed sorts.now tree.now)) }
    ensures small { OnOk result (is_large tree.now ≡ false) }
    ensures large { IsErrOf result TermFault.TooLarge → is_large tree.now ≡ true }
{
    let term = term_of(alloc, store, sorts, tree)?;
    let _size = store.size(term);
    let _depth = store.depth(term);
    Ok(term)
}

/// The terms of the sides of equations. `TooLarge` exactly where a side is past the limits of a term.
pub(crate) fn sides_of(
    alloc: Global,
    store: &mut Store,
    sorts: &[Sort],
    equations: &[(Tree, Tree)],
) -> Result<Vec<(Term, Term)>, TermFault>
    ensures keeps { Keeps store.old store.new }
    ensures made { IfOk result (λ pairs. HaveEquations store.new pairs.items (typed_equations sorts.now equations.now)) }
    ensures small { OnOk result (any_side_large equations.now ≡ false) }
    ensures large { IsErrOf result TermFault.TooLarge → any_side_large equations.now ≡ true }
{
    let mut pairs = Vec::new(alloc);
    for equation in equations {
        let left = side_of(alloc, store, sorts, &equation.0)?;
        let right = side_of(alloc, store, sorts, &equation.1)?;
        pairs.push((left, right))?;
    }
    Ok(pairs)
}
