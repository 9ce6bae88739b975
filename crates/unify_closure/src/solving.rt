//! The most general unifier of equations between places of a graph.

ghost use Rattle.std.specs.Prelude.{◌≡◌, ◌<◌, ℕ, length, IfOk, IfSome, IfNone};
ghost use Rattle.clp_model.specs.declared.tree.Variable.{Variable};
ghost use Rattle.clp_model.specs.declared.tree.Tree.{Tree};
ghost use Rattle.unify_closure.specs.Graph.{Describes, PairsWithin};
ghost use Rattle.unify_closure.specs.Turns.{IsGraph, IsSound};
ghost use Rattle.unify_closure.specs.Reading.{HasOnePlace};
ghost use Rattle.unify_closure.specs.Solved.{IsMostGeneral, HasNoUnifier, HasPlaces, StandsFor};

use crate::classes::find;
use crate::closing::{State, close};
use crate::node::Node;
use crate::sorting::sort;
use std::alloc::Global;
use term_store::NoMemory;

/// What stands for each place: an application, or the variable that comes first. Then the places, each after its
/// arguments and after what stands for it.
#[derive(Drop)]
pub struct Solved {
    pub stands: Vec<usize>,
    pub order: Vec<usize>,
}

/// What stands for each place.
fn stands(alloc: Global, count: usize, state: &mut State) -> Result<Vec<usize>, NoMemory>
    requires { IsSound count state.old.parents.items state.old.best.items }
    ensures { IfOk result (λ v. StandsFor count state.old v.items) }
{
    let mut all = Vec::new(alloc);
    for place in 0..count {
        let class = find(&mut state.parents, place);
        all.push(state.best[class])?;
    }
    Ok(all)
}

/// What stands for each place under the most general unifier, or `None` where no valuation makes the equations hold.
/// Classes are closed under the equations by union and find, as Huet and as Baader and Snyder describe it, and one walk
/// finds cycles. The cost is near-linear in the nodes and the equations.
pub fn solve(
    alloc: Global,
    nodes: &[Node],
    equations: &[(usize, usize)],
) -> Result<Option<Solved>, NoMemory>
    requires graph { IsGraph nodes.now }
    requires one { HasOnePlace nodes.now }
    requires within { PairsWithin (length nodes.now) equations.now }
    ensures some { IfOk result (λ r. IfSome r (λ s. IsMostGeneral nodes.now equations.now s)) }
    ensures places { IfOk result (λ r. IfSome r (λ s. HasPlaces (length nodes.now) s)) }
    ensures none { IfOk result (λ r. IfNone r (HasNoUnifier nodes.now equations.now)) }
{
    let Some(mut state) = close(alloc, nodes, equations)? else {
        return Ok(None);
    };
    let stands = stands(alloc, nodes.len(), &mut state)?;
    let Some(order) = sort(alloc, nodes, stands.as_slice())? else {
        return Ok(None);
    };
    Ok(Some(Solved { stands, order }))
}
