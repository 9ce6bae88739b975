//! The classes of a graph's places under equations.

ghost use Rattle.std.specs.Prelude.{◌≡◌, ℕ, List, [], ◌+◌, ◌<◌, ◌≤◌, ◌++◌, ◌∷◌, length, IfOk, OnOk, IsTrue, IfSome, IfNone};
ghost use Rattle.unify_closure.specs.Graph.{PairsWithin};
ghost use Rattle.unify_closure.specs.Closing.{NeverHold};
ghost use Rattle.unify_closure.specs.Turns.{IsGraph, IsSound, Closes, Goes, cost, AreOwn};

use crate::choice::choose;
use crate::classes::{find, join};
use crate::node::Node;
use std::alloc::Global;
use term_store::NoMemory;

/// The classes of places, the place that stands for each class, and the equations that are left.
#[derive(Drop)]
pub(crate) struct State {
    pub(crate) parents: Vec<usize>,
    pub(crate) best: Vec<usize>,
    work: Vec<(usize, usize)>,
}

/// One turn: false where the equations have no solution.
fn turn(nodes: &[Node], state: &mut State, a: usize, b: usize) -> Result<bool, NoMemory>
    requires graph { IsGraph nodes.now }
    requires sound { IsSound (length nodes.now) state.old.parents.items state.old.best.items }
    requires a_within { a < length nodes.now }
    requires b_within { b < length nodes.now }
    ensures sound { OnOk result (IsSound (length nodes.now) state.new.parents.items state.new.best.items) }
    ensures cost { IfOk result (λ more. IsTrue more → cost state.new ≤ cost state.old) }
    ensures goes { (input : List (ℕ × ℕ)) → Closes nodes.now state.old (state.old.work.items ++ (a, b) ∷ []) input → IfOk result (Goes nodes.now state.new input) }
{
    let a = find(&mut state.parents, a);
    let b = find(&mut state.parents, b);
    if a == b {
        return Ok(true);
    }
    let x = state.best[a];
    let y = state.best[b];
    let Some(best) = choose(nodes, x, y, &mut state.work)? else {
        return Ok(false);
    };
    let class = join(&mut state.parents, a, b);
    state.best[class] = best;
    Ok(true)
}

/// The classes under the equations, or `None` where no valuation makes them hold.
pub(crate) fn close(
    alloc: Global,
    nodes: &[Node],
    equations: &[(usize, usize)],
) -> Result<Option<State>, NoMemory>
    requires graph { IsGraph nodes.now }
    requires within { PairsWithin (length nodes.now) equations.now }
    ensures some { IfOk result (λ r. IfSome r (λ s. Closes nodes.now s [] equations.now)) }
    ensures sound { IfOk result (λ r. IfSome r (λ s. IsSound (length nodes.now) s.parents.items s.best.items)) }
    ensures none { IfOk result (λ r. IfNone r (NeverHold nodes.now equations.now)) }
{
    let mut state = State {
        parents: places(alloc, nodes.len())?,
        best: places(alloc, nodes.len())?,
        work: Vec::from_slice(alloc, equations)?,
    };
    while let Some((a, b)) = state.work.pop() {
        if !turn(nodes, &mut state, a, b)? {
            return Ok(None);
        }
    }
    Ok(Some(state))
}

/// Each place by itself.
fn places(alloc: Global, count: usize) -> Result<Vec<usize>, NoMemory>
    ensures { IfOk result (λ v. AreOwn count v.items) }
{
    let mut all = Vec::new(alloc);
    for place in 0..count {
        all.push(place)?;
    }
    Ok(all)
}
