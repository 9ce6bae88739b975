//! The trees of lists.

ghost use Rattle.std.specs.Prelude.{◌≡◌, IfOk};
ghost use Rattle.clp_grammar.specs.Terms as spec;
ghost use Rattle.clause_meaning.specs.Known as known;

use clp_model::{Name, Tree};
use sqlite_items::Items;
use std::alloc::{AllocError, Global};

fn empty_list(alloc: Global) -> Result<Tree, AllocError>
    ensures { IfOk result (λ t. t ≡ spec.empty_list) }
{
    let name = Name::copy_of(alloc, "[]")?;
    Ok(Tree::App(name, Items::new(alloc)))
}

/// The list with this first element and this rest.
fn cell(alloc: Global, first: Tree, rest: Tree) -> Result<Tree, AllocError>
    ensures { IfOk result (λ t. t ≡ spec.cell first rest) }
{
    let name = Name::copy_of(alloc, ".")?;
    let mut parts = Items::from_vec(Vec::with_capacity(alloc, 2)?);
    parts.push(first)?;
    parts.push(rest)?;
    Ok(Tree::App(name, parts))
}

/// The list of these elements and then of this rest.
fn list_before(alloc: Global, mut elements: Items<Tree>, rest: Tree) -> Result<Tree, AllocError>
    ensures { IfOk result (λ t. t ≡ known.list_before elements rest) }
{
    let mut list = rest;
    while let Some(element) = elements.pop() {
        list = cell(alloc, element, list)?;
    }
    Ok(list)
}

/// The list of these elements.
#[tactic(auto, using(crate::proofs::Rests::list_is))]
pub(crate) fn list_of(alloc: Global, elements: Items<Tree>) -> Result<Tree, AllocError>
    ensures { IfOk result (λ t. t ≡ spec.list_of elements) }
{
    let rest = empty_list(alloc)?;
    list_before(alloc, elements, rest)
}

/// The list of these elements but the last, which is its rest.
#[tactic(auto, using(crate::proofs::Rests::open_is))]
pub(crate) fn open_list(alloc: Global, mut elements: Items<Tree>) -> Result<Tree, AllocError>
    ensures { IfOk result (λ t. t ≡ spec.open_list elements) }
{
    match elements.pop() {
        Some(rest) => list_before(alloc, elements, rest),
        None => empty_list(alloc),
    }
}
