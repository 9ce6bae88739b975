//! The most general unifier of equations between terms.

ghost use Rattle.std.specs.Prelude.{◌≡◌, None, IfOk, IfSome, IfNone};
ghost use Rattle.unify_model.specs.Unifying.{most_general_unifier};
ghost use Rattle.unify.specs.Graphs.{IsTermGraph};
ghost use Rattle.unify.specs.Pairs.{PairsIn, equations_at, AreEntered};
ghost use Rattle.unify.specs.Unifiers.{Unifies};
ghost use Rattle.substitution.specs.Weights.{IsOf, images};

use crate::graph::TermGraph;
use crate::reading::read_bindings;
use std::alloc::Global;
use substitution::Subst;
use term_store::{NoMemory, Store, Term};
use unify_closure::solve;

/// The places of the pairs' terms, which are entered.
fn enter_pairs(
    alloc: Global,
    graph: &mut TermGraph,
    store: &Store,
    pairs: &[(Term, Term)],
) -> Result<Vec<(usize, usize)>, NoMemory>
    requires pairs { PairsIn store.now pairs.now }
    requires graph { IsTermGraph store.now graph.old }
    ensures { IfOk result (λ es. AreEntered store.now graph.new pairs.now es.items) }
{
    let mut equations = Vec::new(alloc);
    for (a, b) in pairs {
        let a = graph.enter(store, *a)?;
        let b = graph.enter(store, *b)?;
        equations.push((a, b))?;
    }
    Ok(equations)
}

/// The most general unifier of the equations between the pairs' terms, or `None` exactly where no valuation makes them
/// all hold: where names, numbers of arguments or sorts clash, or a variable would lie inside its own image. A `Num`
/// variable becomes a `Num` variable alone. For equal variables stands the least `Num` variable, or the least where none
/// is `Num`. Its images are carried out one after another (Robinson's unifier in triangular form), so that it is small
/// where the images are not.
///
/// The cost is near-linear in the nodes that the pairs reach, each shared term counted once, whatever else the store
/// holds. The one error is want of memory.
pub fn unify(
    alloc: Global,
    store: &Store,
    pairs: &[(Term, Term)],
) -> Result<Option<Subst>, NoMemory>
    requires { PairsIn store.now pairs.now }
    ensures some { IfOk result (λ r. IfSome r (λ s. Unifies (equations_at store.now pairs.now) (images store.now s))) }
    ensures of { IfOk result (λ r. IfSome r (λ s. IsOf store.now s)) }
    ensures none { IfOk result (λ r. IfNone r (most_general_unifier (equations_at store.now pairs.now) ≡ None)) }
{
    let mut graph = TermGraph::new(alloc);
    let equations = enter_pairs(alloc, &mut graph, store, pairs)?;
    let nodes = graph.nodes.as_slice();
    let Some(solved) = solve(alloc, nodes, equations.as_slice())? else {
        return Ok(None);
    };
    let bindings = read_bindings(alloc, nodes, graph.terms.as_slice(), &solved)?;
    Ok(Some(Subst::in_turn(alloc, store, bindings)?))
}
