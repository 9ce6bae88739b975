//! The internal variables of a definition, those that are not in its head: each must become a variable of its sort that is
//! nowhere else in the folded clause.

ghost use Rattle.std.specs.Prelude.{◌≡◌, ◌<◌, ◌++◌, ◌∷◌, [], ℕ, List, All, IsTrue, IsFalse, map, length, IfOk};
ghost use Rattle.clp_model.specs.declared.tree.Tree.{Tree};
ghost use Rattle.clp_model.specs.Trees.{variables, variables_in};
ghost use Rattle.clause_model.specs.Variables.{rows_variables};
ghost use Rattle.unify_model.specs.Substituting.{same_sort};
ghost use Rattle.term_store.specs.Trees.{AreIn};
ghost use Rattle.clause_store.specs.Stored.{atom_at, atoms_at, clause_in, IsStored};
ghost use Rattle.clause_loader.specs.WellFormed.{IsNumber};
ghost use Rattle.fold_model.specs.Positions as parts;
ghost use Rattle.fold_model.specs.Internal as spec;
ghost use Rattle.clause_fold.specs.Marks.{Adds, Are};
ghost use Rattle.clause_fold.specs.Images.{image_by, AreImages, Become};
ghost use Rattle.clause_fold.specs.Internal.{is_free, IsFirstLost, IsPassed};

use crate::carrying::image_at;
use crate::definitions::{head_marks, number_in};
use crate::marks::Marks;
use crate::parts::{chosen_rows, others};
use clause_store::{Clause, sort_in};
use clp_model::Sort;
use std::alloc::Global;
use term_store::{Look, NoMemory, Store, Term};

/// The variables of the clause's head, of its atoms that stay, and of the rows that are kept.
fn staying_marks(
    alloc: Global,
    store: &Store,
    c: &Clause,
    at: &[u32],
    keep: &[u32],
) -> Result<Marks, NoMemory>
    requires { IsStored store.now c.now }
    ensures { IfOk result (λ m. Are m (length c.now.sorts) ((variables (atom_at store.now c.now.head) ++ variables_in (parts.others at.now (atoms_at store.now c.now.atoms)))
        ++ rows_variables (parts.chosen keep.now c.now.rows))) }
{
    let mut marks = head_marks(alloc, store, c)?;
    let atoms = others(alloc, at, c.atoms.as_slice())?;
    marks.add_terms(store, atoms.as_slice());
    let rows = chosen_rows(alloc, keep, c.rows.as_slice())?;
    marks.add_rows(rows.as_slice());
    Ok(marks)
}

/// Marks the variables of what the variables of a term become.
#[cycle(add_images)]
fn add_images(marks: &mut Marks, scratch: &Store, images: &[Term], store: &Store, t: Term)
    requires images { AreIn scratch.now images.now }
    requires numbered { All (IsNumber (length marks.old)) (variables_in (atoms_at scratch.now images.now)) }
    requires within { t < length store.now }
    requires places { All (IsNumber (length images.now)) (variables (atom_at store.now t)) }
    ensures { Adds marks.old marks.new (variables_in (map (image_by scratch.now images.now) (variables (atom_at store.now t)))) }
{
    match store.look(t) {
        Look::Var(number, _) => marks.add_term(scratch, image_at(images, number)),
        Look::App(_, args) => add_all_images(marks, scratch, images, store, args),
    }
}

/// The same of several terms.
#[cycle(add_images)]
fn add_all_images(
    marks: &mut Marks,
    scratch: &Store,
    images: &[Term],
    store: &Store,
    terms: &[Term],
)
    requires images { AreIn scratch.now images.now }
    requires numbered { All (IsNumber (length marks.old)) (variables_in (atoms_at scratch.now images.now)) }
    requires within { AreIn store.now terms.now }
    requires places { All (IsNumber (length images.now)) (variables_in (atoms_at store.now terms.now)) }
    ensures { Adds marks.old marks.new (variables_in (map (image_by scratch.now images.now) (variables_in (atoms_at store.now terms.now)))) }
{
    for term in terms {
        add_images(marks, scratch, images, store, *term);
    }
}

/// The variables that the image of an internal variable may not be.
fn taken_marks(
    alloc: Global,
    store: &Store,
    n: &Clause,
    c: &Clause,
    scratch: &Store,
    images: &[Term],
    at: &[u32],
    keep: &[u32],
) -> Result<Marks, NoMemory>
    requires definition { IsStored store.now n.now }
    requires clause { IsStored store.now c.now }
    requires images { AreImages scratch.now images.now (length n.now.sorts) c.now.sorts }
    ensures { IfOk result (λ m. Are m (length c.now.sorts) (spec.taken_variables (clause_in store.now n.now) (clause_in store.now c.now) (image_by scratch.now images.now) at.now keep.now)) }
{
    let mut marks = staying_marks(alloc, store, c, at, keep)?;
    add_images(&mut marks, scratch, images, store, n.head);
    Ok(marks)
}

fn same_sort(s: Sort, r: Sort) -> bool
    ensures { result ≡ same_sort s r }
{
    match (s, r) {
        (Sort::Any, Sort::Any) => true,
        (Sort::Num, Sort::Num) => true,
        _ => false,
    }
}

/// Whether the term is a variable of the sort.
#[tactic(auto, using(crate::proofs::Lost::variable_of_var, crate::proofs::Lost::variable_of_app))]
fn is_variable_of(scratch: &Store, sorts: &[Sort], kind: Sort, t: Term) -> bool
    requires { t < length scratch.now }
    ensures { result ≡ spec.is_variable_of sorts.now kind (atom_at scratch.now t) }
{
    match scratch.look(t) {
        Look::Var(number, _) => same_sort(sort_in(sorts, number), kind),
        Look::App(_, _) => false,
    }
}

/// Whether the term is a variable of the sort that is not marked.
fn is_free(scratch: &Store, sorts: &[Sort], kind: Sort, taken: &Marks, t: Term) -> bool
    requires { t < length scratch.now }
    ensures { result ≡ is_free sorts.now kind taken.now (atom_at scratch.now t) }
{
    is_variable_of(scratch, sorts, kind, t) && !taken.has(number_in(scratch, t))
}

/// Whether a variable of the definition is internal, and its image is not a variable of its sort or is one that is taken.
/// If it is not, its image is taken from then on.
fn is_lost(
    store: &Store,
    n: &Clause,
    c: &Clause,
    scratch: &Store,
    images: &[Term],
    head: &Marks,
    number: u32,
    taken: &mut Marks,
) -> bool
    requires definition { IsStored store.now n.now }
    requires images { AreImages scratch.now images.now (length n.now.sorts) c.now.sorts }
    requires head { Are head.now (length n.now.sorts) (variables (atom_at store.now n.now.head)) }
    requires number { IsNumber (length n.now.sorts) number }
    requires count { length taken.old ≡ length c.now.sorts }
    ensures lost { IsTrue result → (xs : List ℕ) → Are taken.old (length c.now.sorts) xs
        → IsFirstLost (clause_in store.now n.now) (clause_in store.now c.now) (image_by scratch.now images.now) xs number }
    ensures passed { IsFalse result → (xs : List ℕ) → Are taken.old (length c.now.sorts) xs
        → IsPassed (clause_in store.now n.now) (clause_in store.now c.now) (image_by scratch.now images.now) xs taken.new number }
    ensures count { length taken.new ≡ length taken.old }
{
    if head.has(number) {
        return false;
    }
    let image = image_at(images, number);
    let kind = sort_in(n.sorts.as_slice(), number);
    if !is_free(scratch, c.sorts.as_slice(), kind, taken, image) {
        return true;
    }
    taken.add(number_in(scratch, image));
    false
}

/// The least variable of the definition that is lost after what is taken.
fn first_lost(
    store: &Store,
    n: &Clause,
    c: &Clause,
    scratch: &Store,
    images: &[Term],
    head: &Marks,
    taken: &mut Marks,
) -> Option<u32>
    requires definition { IsStored store.now n.now }
    requires images { AreImages scratch.now images.now (length n.now.sorts) c.now.sorts }
    requires head { Are head.now (length n.now.sorts) (variables (atom_at store.now n.now.head)) }
    requires count { length taken.old ≡ length c.now.sorts }
    ensures { (xs : List ℕ) → Are taken.old (length c.now.sorts) xs
        → result ≡ spec.first_lost (clause_in store.now n.now) (clause_in store.now c.now) (image_by scratch.now images.now) xs (spec.internal_variables (clause_in store.now n.now)) }
{
    for i in 0..n.sorts.len() {
        let number = i as u32 + 1;
        if is_lost(store, n, c, scratch, images, head, number, taken) {
            return Some(number);
        }
    }
    None
}

/// The least internal variable of the definition `n` whose image is not a variable of its sort, or is a variable of the
/// head of `c`, of one of its atoms that are not at the positions `at`, of one of its rows at the positions `keep`, of
/// what a variable of the definition's head becomes, or what a lesser internal variable becomes. The images are those of
/// the definition's variables, in order, in the scratch store.
pub fn lost_variable(
    alloc: Global,
    store: &Store,
    n: &Clause,
    c: &Clause,
    scratch: &Store,
    images: &[Term],
    at: &[u32],
    keep: &[u32],
) -> Result<Option<u32>, NoMemory>
    requires definition { IsStored store.now n.now }
    requires clause { IsStored store.now c.now }
    requires images { AreImages scratch.now images.now (length n.now.sorts) c.now.sorts }
    ensures { IfOk result (λ r. (s : ℕ → Tree ℕ) → Become scratch.now images.now s
        → r ≡ spec.lost_variable (clause_in store.now n.now) (clause_in store.now c.now) s at.now keep.now) }
{
    let head = head_marks(alloc, store, n)?;
    let mut taken = taken_marks(alloc, store, n, c, scratch, images, at, keep)?;
    Ok(first_lost(store, n, c, scratch, images, &head, &mut taken))
}
