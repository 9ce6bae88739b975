//! The parts of a source clause, with what solves its equations carried out in them.

ghost use Rattle.std.specs.Prelude.{◌≡◌, IfOk, IfErr, IsErrOf, ◌∷◌, All, map};
ghost use Rattle.linear_model.specs.Normal.{normal};
ghost use Rattle.linear_model.specs.Changes.{renamed};
ghost use Rattle.clause_model.specs.Solved.{typed_equations};
ghost use Rattle.clause_model.specs.Canonical.{new_clause};
ghost use Rattle.lin_row.specs.Rows.{IsKept};
ghost use Rattle.term_store.specs.Trees.{HasTree, HaveTrees, IsOver, IsTooLarge, Keeps};
ghost use Rattle.unify.specs.Unifiers.{Unifies};
ghost use Rattle.substitution.specs.Weights.{IsOf, images};
ghost use Rattle.substitution.specs.Made.{IsPastAny};
ghost use Rattle.clause_store.specs.Source.{meaning_of};
ghost use Rattle.clause_store.specs.Stored.{raw_in, IsRaw, IsRefused};
ghost use Rattle.clause_loader.specs.WellFormed.{IsWellFormed};
ghost use Rattle.clause_loader.specs.Carried.{with_images, all_with_images, number_by, clause_by};

use crate::build::term_of;
use crate::rows::carried_rows;
use clause_store::{ClauseFault, Limit, RawClause, Row, SourceClause};
use clp_model::{Sort, Tree};
use lin_row::RowFault;
use sqlite_items::Items;
use std::alloc::Global;
use term_store::{Store, Term, TermFault};
use unify::{Subst, apply};

/// The term of a tree with the images in it. `TooLarge` only where this is past the limits of a term.
fn carried_term(
    alloc: Global,
    store: &mut Store,
    s: &Subst,
    sorts: &[Sort],
    tree: &Tree,
) -> Result<Term, TermFault>
    requires of { IsOf store.old s.now }
    ensures keeps { Keeps store.old store.new }
    ensures made { IfOk result (λ t. HasTree store.new t (with_images sorts.now (images store.old s.now) tree.now)) }
    ensures large { IsErrOf result TermFault.TooLarge → IsTooLarge (with_images sorts.now (images store.old s.now) tree.now) }
{
    let term = term_of(alloc, store, sorts, tree)?;
    apply(store, s, term)
}

/// The same of several trees, in order.
fn carried_terms(
    alloc: Global,
    store: &mut Store,
    s: &Subst,
    sorts: &[Sort],
    trees: &[Tree],
) -> Result<Items<Term>, TermFault>
    requires of { IsOf store.old s.now }
    ensures keeps { Keeps store.old store.new }
    ensures made { IfOk result (λ ts. HaveTrees store.new ts (all_with_images sorts.now (images store.old s.now) trees.now)) }
    ensures large { IsErrOf result TermFault.TooLarge → IsPastAny (all_with_images sorts.now (images store.old s.now) trees.now) }
{
    let mut terms = Items::new(alloc);
    for tree in trees {
        let term = carried_term(alloc, store, s, sorts, tree)?;
        terms.push(term)?;
    }
    Ok(terms)
}

/// The clause of the head and the atoms with the images in them, and of rows.
fn carried_parts(
    alloc: Global,
    store: &mut Store,
    s: &Subst,
    source: &SourceClause,
    rows: Items<Row>,
) -> Result<RawClause, TermFault>
    requires formed { IsWellFormed source.now }
    requires of { IsOf store.old s.now }
    requires solved { Unifies (typed_equations source.now.sorts source.now.equations) (images store.old s.now) }
    requires rows { rows ≡ map (λ r. normal (renamed (number_by source.now.sorts (images store.old s.now)) r)) source.now.rows }
    requires kept { All IsKept rows }
    ensures keeps { Keeps store.old store.new }
    ensures raw { IfOk result (λ raw. IsRaw store.new raw) }
    ensures same { IfOk result (λ raw. new_clause (raw_in store.new raw) ≡ new_clause (clause_by (images store.old s.now) (meaning_of source.now))) }
    ensures large { IsErrOf result TermFault.TooLarge → IsPastAny (all_with_images source.now.sorts (images store.old s.now) (source.now.head ∷ source.now.atoms)) }
{
    let sorts = source.sorts.as_slice();
    let head = carried_term(alloc, store, s, sorts, &source.head)?;
    let atoms = carried_terms(alloc, store, s, sorts, source.atoms.as_slice())?;
    let sorts = Items::from_slice(alloc, sorts)?;
    Ok(RawClause {
        head,
        rows,
        atoms,
        sorts,
    })
}

/// The parts of a clause with what solves its equations carried out in them. A row out of range refuses it before a head
/// or an atom that is too large for a term.
pub(crate) fn carried(
    alloc: Global,
    store: &mut Store,
    s: &Subst,
    source: &SourceClause,
) -> Result<RawClause, ClauseFault>
    requires formed { IsWellFormed source.now }
    requires of { IsOf store.old s.now }
    requires solved { Unifies (typed_equations source.now.sorts source.now.equations) (images store.old s.now) }
    ensures keeps { Keeps store.old store.new }
    ensures raw { IfOk result (λ raw. IsRaw store.new raw) }
    ensures same { IfOk result (λ raw. new_clause (raw_in store.new raw) ≡ new_clause (clause_by (images store.old s.now) (meaning_of source.now))) }
    ensures refused { IfErr result (IsRefused (clause_by (images store.old s.now) (meaning_of source.now))) }
{
    let sorts = source.sorts.as_slice();
    let rows = match carried_rows(alloc, store, s, sorts, source.rows.as_slice()) {
        Ok(rows) => rows,
        Err(RowFault::Overflow) => return Err(ClauseFault::Overflow),
        Err(RowFault::NoMemory) => return Err(ClauseFault::NoMemory),
    };
    match carried_parts(alloc, store, s, source, rows) {
        Ok(raw) => Ok(raw),
        Err(TermFault::TooLarge) => Err(ClauseFault::TooLarge(Limit::Shape)),
        Err(TermFault::NoMemory) => Err(ClauseFault::NoMemory),
    }
}
