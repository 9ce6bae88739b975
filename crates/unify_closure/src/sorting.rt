//! Places in an order that goes from arguments to applications.

ghost use Rattle.std.specs.Prelude.{◌≡◌, ℕ, List, [], ◌++◌, ◌∷◌, ◌<◌, ◌≤◌, length, IfOk, OnOk, IfSome, IfNone, IsTrue};
ghost use Rattle.clp_model.proofs.Membership.{Among};
ghost use Rattle.unify_closure.specs.Graph.{node_at};
ghost use Rattle.unify_closure.specs.Turns.{IsGraph};
ghost use Rattle.unify_closure.specs.Reading.{IsOrder};
ghost use Rattle.unify_closure.specs.Walks.{Walks, WalksOn, walk_cost};
ghost use Rattle.unify_closure.specs.Sorting.{kids, kids_by, rep_of, entering, latest, AreStands, NeverSolves, AreUnmarked, AreEntered};

use crate::node::Node;
use std::alloc::Global;
use term_store::NoMemory;

fn enter_all(args: &[usize], stack: &mut Vec<(usize, bool)>) -> Result<(), NoMemory>
    ensures { OnOk result (stack.new.items ≡ stack.old.items ++ entering args.now) }
{
    for arg in args {
        stack.push((*arg, false))?;
    }
    Ok(())
}

/// Enters the place that stands for `place`, unless it does itself, and the arguments.
fn enter_kids(
    node: &Node,
    place: usize,
    stands: usize,
    stack: &mut Vec<(usize, bool)>,
) -> Result<(), NoMemory>
    ensures { OnOk result (stack.new.items ≡ stack.old.items ++ entering (kids_by place stands node.now)) }
{
    if stands != place {
        stack.push((stands, false))?;
    }
    match node {
        Node::Var(_, _) => Ok(()),
        Node::App(_, args) => enter_all(args.as_slice(), stack),
    }
}

/// The places that were entered, those that were left, these in order, and the visits that are left.
#[derive(Drop)]
pub(crate) struct Walk {
    entered: Vec<bool>,
    left: Vec<bool>,
    order: Vec<usize>,
    stack: Vec<(usize, bool)>,
}

/// One visit: false where the place lies on a cycle.
fn visit(
    nodes: &[Node],
    stands: &[usize],
    walk: &mut Walk,
    place: usize,
    leaving: bool,
) -> Result<bool, NoMemory>
    requires graph { IsGraph nodes.now }
    requires within { place < length nodes.now }
    requires stands_count { length stands.now ≡ length nodes.now }
    requires stands { AreStands nodes.now stands.now }
    requires walks { Walks nodes.now stands.now walk.old (walk.old.stack.items ++ (place, leaving) ∷ []) }
    ensures cost { IfOk result (λ more. IsTrue more → walk_cost walk.new ≤ walk_cost walk.old) }
    ensures walks { IfOk result (WalksOn nodes.now stands.now walk.new) }
{
    if leaving {
        if !walk.left[place] {
            walk.left[place] = true;
            walk.order.push(place)?;
        }
        return Ok(true);
    }
    if !walk.entered[place] {
        walk.entered[place] = true;
        walk.stack.push((place, true))?;
        enter_kids(&nodes[place], place, stands[place], &mut walk.stack)?;
        return Ok(true);
    }
    Ok(walk.left[place])
}

/// The places in an order that goes from arguments to applications, or `None` where no valuation gives each place the
/// value of what stands for it.
pub(crate) fn sort(
    alloc: Global,
    nodes: &[Node],
    stands: &[usize],
) -> Result<Option<Vec<usize>>, NoMemory>
    requires graph { IsGraph nodes.now }
    requires stands_count { length stands.now ≡ length nodes.now }
    requires stands { AreStands nodes.now stands.now }
    ensures order { IfOk result (λ r. IfSome r (λ order. IsOrder nodes.now (rep_of stands.now) (latest order.items))) }
    ensures every { IfOk result (λ r. IfSome r (λ order. (p : ℕ) → p < length nodes.now → Among p (latest order.items))) }
    ensures none { IfOk result (λ r. IfNone r (NeverSolves nodes.now stands.now)) }
{
    let mut walk = Walk {
        entered: unmarked(alloc, nodes.len())?,
        left: unmarked(alloc, nodes.len())?,
        order: Vec::new(alloc),
        stack: entered(alloc, nodes.len())?,
    };
    while let Some((place, leaving)) = walk.stack.pop() {
        if !visit(nodes, stands, &mut walk, place, leaving)? {
            return Ok(None);
        }
    }
    Ok(Some(walk.order))
}

fn unmarked(alloc: Global, count: usize) -> Result<Vec<bool>, NoMemory>
    ensures { IfOk result (λ v. AreUnmarked count v.items) }
{
    let mut all = Vec::new(alloc);
    for _place in 0..count {
        all.push(false)?;
    }
    Ok(all)
}

/// A visit of each place.
fn entered(alloc: Global, count: usize) -> Result<Vec<(usize, bool)>, NoMemory>
    ensures { IfOk result (λ v. AreEntered count v.items) }
{
    let mut all = Vec::new(alloc);
    for place in 0..count {
        all.push((place, false))?;
    }
    Ok(all)
}
