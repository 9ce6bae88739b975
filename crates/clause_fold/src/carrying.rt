//! Terms of a definition, with what its variables become in them.

ghost use Rattle.std.specs.Prelude.{◌≡◌, ◌<◌, All, length, slice_index_or, IfOk, IsErrOf};
ghost use Rattle.clp_model.specs.Trees.{variables, variables_in};
ghost use Rattle.lin_row.specs.Rows.{at};
ghost use Rattle.unify_model.specs.Substituting.{substituted, substituted_all};
ghost use Rattle.substitution.specs.Made.{IsPastAny};
ghost use Rattle.term_store.specs.Trees.{tree_at, trees_at, AreIn, HasTree, HaveTrees, IsTooLarge, Keeps};
ghost use Rattle.clause_store.specs.Stored.{atom_at, atoms_at};
ghost use Rattle.clause_loader.specs.WellFormed.{IsNumber};
ghost use Rattle.clause_fold.specs.Images.{image_of};

use sqlite_items::Items;
use std::alloc::Global;
use term_store::{Look, Store, Term, TermFault};

/// The image of the variable of this number.
pub(crate) fn image_at(images: &[Term], number: u32) -> Term
    requires { IsNumber (length images.now) number }
    ensures { result ≡ at images.now number }
{
    images[number as usize - 1]
}

/// The term of the scratch store with the tree of a term of another store, in which each variable is replaced by its
/// image. `TooLarge` only where this is past the limits of a term.
#[cycle(with_images)]
pub(crate) fn with_images(
    alloc: Global,
    scratch: &mut Store,
    images: &[Term],
    store: &Store,
    t: Term,
) -> Result<Term, TermFault>
    requires images { AreIn scratch.old images.now }
    requires within { t < length store.now }
    requires numbered { All (IsNumber (length images.now)) (variables (atom_at store.now t)) }
    ensures keeps { Keeps scratch.old scratch.new }
    ensures made { IfOk result (λ r. HasTree scratch.new r (substituted (image_of scratch.old images.now) (tree_at store.now t))) }
    ensures large { IsErrOf result TermFault.TooLarge → IsTooLarge (substituted (image_of scratch.old images.now) (tree_at store.now t)) }
{
    match store.look(t) {
        Look::Var(number, _) => Ok(image_at(images, number)),
        Look::App(name, args) => {
            let terms = all_with_images(alloc, scratch, images, store, args)?;
            scratch.app(name, terms.as_slice())
        }
    }
}

/// The same of several terms, in order.
#[cycle(with_images)]
fn all_with_images(
    alloc: Global,
    scratch: &mut Store,
    images: &[Term],
    store: &Store,
    terms: &[Term],
) -> Result<Items<Term>, TermFault>
    requires images { AreIn scratch.old images.now }
    requires within { AreIn store.now terms.now }
    requires numbered { All (IsNumber (length images.now)) (variables_in (atoms_at store.now terms.now)) }
    ensures keeps { Keeps scratch.old scratch.new }
    ensures made { IfOk result (λ rs. HaveTrees scratch.new rs (substituted_all (image_of scratch.old images.now) (trees_at store.now terms.now))) }
    ensures large { IsErrOf result TermFault.TooLarge → IsPastAny (substituted_all (image_of scratch.old images.now) (trees_at store.now terms.now)) }
{
    let mut all = Items::new(alloc);
    for term in terms {
        let one = with_images(alloc, scratch, images, store, *term)?;
        all.push(one)?;
    }
    Ok(all)
}
