//! The clause in which the head of a definition stands in the place of the atoms that are folded.

ghost use Rattle.std.specs.Prelude.{◌≡◌, ℕ, None, length, IfOk, IfErr, IsErrOf};
ghost use Rattle.clp_model.specs.declared.tree.Tree.{Tree};
ghost use Rattle.term_store.specs.Trees.{tree_at, trees_at, HaveTrees, Keeps};
ghost use Rattle.clause_store.specs.Stored.{clause_in, raw_in, IsRaw, IsRefused, IsStored};
ghost use Rattle.fold_model.specs.Positions.{first_outside};
ghost use Rattle.fold_model.specs.Folded as spec;
ghost use Rattle.clause_fold.specs.Images.{AreImages, Become};
ghost use Rattle.clause_fold.specs.Folded.{folded_trees, IsFolded, AreTooLarge};

use crate::carrying::with_images;
use crate::parts::{chosen_rows, replaced};
use clause_store::{Clause, ClauseFault, Limit, RawClause};
use sqlite_items::Items;
use std::alloc::Global;
use term_store::{Store, Term, TermFault};

/// The atoms of the clause with the definition's head, with the images in it, in the place of the first that is folded,
/// and without the others of these. `TooLarge` only where one is past the limits of a term.
fn folded_atoms(
    alloc: Global,
    scratch: &mut Store,
    store: &Store,
    n: &Clause,
    c: &Clause,
    images: &[Term],
    at: &[u32],
) -> Result<Items<Term>, TermFault>
    requires definition { IsStored store.now n.now }
    requires clause { IsStored store.now c.now }
    requires images { AreImages scratch.old images.now (length n.now.sorts) c.now.sorts }
    requires positions { first_outside (length c.now.atoms) at.now ≡ None }
    ensures keeps { Keeps scratch.old scratch.new }
    ensures made { IfOk result (λ ts. HaveTrees scratch.new ts (folded_trees scratch.old images.now store.now n.now c.now at.now)) }
    ensures large { IsErrOf result TermFault.TooLarge → AreTooLarge (folded_trees scratch.old images.now store.now n.now c.now at.now) }
{
    if at.is_empty() {
        return Ok(scratch.copy_all(store, c.atoms.as_slice())?);
    }
    let atom = with_images(alloc, scratch, images, store, n.head)?;
    let atoms = scratch.copy_all(store, c.atoms.as_slice())?;
    Ok(replaced(alloc, atom, at, atoms.as_slice())?)
}

/// The parts of the folded clause. `TooLarge` only where an atom is past the limits of a term.
fn folded_parts(
    alloc: Global,
    scratch: &mut Store,
    store: &Store,
    n: &Clause,
    c: &Clause,
    images: &[Term],
    at: &[u32],
    keep: &[u32],
) -> Result<RawClause, TermFault>
    requires definition { IsStored store.now n.now }
    requires clause { IsStored store.now c.now }
    requires images { AreImages scratch.old images.now (length n.now.sorts) c.now.sorts }
    requires positions { first_outside (length c.now.atoms) at.now ≡ None }
    ensures keeps { Keeps scratch.old scratch.new }
    ensures parts { IfOk result (λ raw. IsFolded scratch.new raw store.now c.now keep.now (folded_trees scratch.old images.now store.now n.now c.now at.now)) }
    ensures large { IsErrOf result TermFault.TooLarge → AreTooLarge (folded_trees scratch.old images.now store.now n.now c.now at.now) }
{
    let atoms = folded_atoms(alloc, scratch, store, n, c, images, at)?;
    let head = scratch.copy(store, c.head)?;
    let rows = chosen_rows(alloc, keep, c.rows.as_slice())?;
    let sorts = Items::from_slice(alloc, c.sorts.as_slice())?;
    Ok(RawClause {
        head,
        rows,
        atoms,
        sorts,
    })
}

/// The clause `c` in which the head of the definition `n`, with the images of its variables in it, stands in the place of
/// the first of the atoms at the positions `at`; the others of these are gone, and so are the rows whose positions are
/// not among `keep`. Its terms are of the scratch store, and it is not yet in canonical form.
///
/// # Errors
///
/// `TooLarge` with the limit `Shape` where the new atom is past the limits of a term; never `Overflow`.
pub fn folded_clause(
    alloc: Global,
    scratch: &mut Store,
    store: &Store,
    n: &Clause,
    c: &Clause,
    images: &[Term],
    at: &[u32],
    keep: &[u32],
) -> Result<RawClause, ClauseFault>
    requires definition { IsStored store.now n.now }
    requires clause { IsStored store.now c.now }
    requires images { AreImages scratch.old images.now (length n.now.sorts) c.now.sorts }
    requires positions { first_outside (length c.now.atoms) at.now ≡ None }
    ensures keeps { Keeps scratch.old scratch.new }
    ensures is { IfOk result (λ raw. (s : ℕ → Tree ℕ) → Become scratch.old images.now s → raw_in scratch.new raw ≡ spec.folded_clause (clause_in store.now n.now) (clause_in store.now c.now) s at.now keep.now) }
    ensures raw { IfOk result (λ raw. IsRaw scratch.new raw) }
    ensures refused { IfErr result (λ e. (s : ℕ → Tree ℕ) → Become scratch.old images.now s → IsRefused (spec.folded_clause (clause_in store.now n.now) (clause_in store.now c.now) s at.now keep.now) e) }
{
    match folded_parts(alloc, scratch, store, n, c, images, at, keep) {
        Ok(raw) => Ok(raw),
        Err(TermFault::TooLarge) => Err(ClauseFault::TooLarge(Limit::Shape)),
        Err(TermFault::NoMemory) => Err(ClauseFault::NoMemory),
    }
}
