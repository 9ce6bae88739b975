//! The bindings of a unifier, read off its classes.

ghost use Rattle.std.specs.Prelude.{◌≡◌, ◌<◌, ℕ, List, length, IfOk, OnOk};
ghost use Rattle.clp_model.specs.declared.tree.Variable.{Variable};
ghost use Rattle.clp_model.specs.declared.tree.Tree.{Tree};
ghost use Rattle.unify_closure.specs.Graph.{node_at};
ghost use Rattle.unify_closure.specs.Reading.{with_binding};
ghost use Rattle.unify_closure.specs.Solved.{HasPlaces, read_bindings};
ghost use Rattle.unify.specs.Graphs.{term_at, node_tree};
ghost use Rattle.substitution.specs.Bindings.{bound, AreBound};

use std::alloc::Global;
use substitution::{Bindings, Bound};
use term_store::{NoMemory, Term};
use unify_closure::{Node, Solved};

/// Puts the binding of a place last, if it is a variable for which another place stands.
fn push_binding(
    nodes: &[Node],
    terms: &[Term],
    place: usize,
    stands: usize,
    bindings: &mut Bindings,
) -> Result<(), NoMemory>
    requires place { place < length nodes.now }
    requires stands { stands < length nodes.now }
    requires terms { length terms.now ≡ length nodes.now }
    ensures value { OnOk result ((store : List (Tree Variable)) →
        bound store bindings.new ≡ with_binding (node_tree store terms.now) place (node_at nodes.now place) stands (bound store bindings.old)) }
    ensures within { OnOk result ((store : List (Tree Variable)) → term_at terms.now stands < length store → AreBound store bindings.old → AreBound store bindings.new) }
{
    match &nodes[place] {
        Node::Var(number, sort) if stands != place => {
            bindings.push(Bound {
                number: *number,
                sort: *sort,
                term: terms[stands],
            })?;
            Ok(())
        }
        _ => Ok(()),
    }
}

/// The bindings of the variables for which other places stand, in the order of the places.
pub(crate) fn read_bindings(
    alloc: Global,
    nodes: &[Node],
    terms: &[Term],
    solved: &Solved,
) -> Result<Bindings, NoMemory>
    requires places { HasPlaces (length nodes.now) solved.now }
    requires terms { length terms.now ≡ length nodes.now }
    ensures value { IfOk result (λ bs. (store : List (Tree Variable)) → bound store bs ≡ read_bindings nodes.now (node_tree store terms.now) solved.now) }
    ensures within { IfOk result (λ bs. (store : List (Tree Variable)) → ((p : ℕ) → p < length nodes.now → term_at terms.now p < length store) → AreBound store bs) }
{
    let mut bindings = Bindings::new(alloc);
    for place in solved.order.as_slice() {
        push_binding(nodes, terms, *place, solved.stands[*place], &mut bindings)?;
    }
    Ok(bindings)
}
