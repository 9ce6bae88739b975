//! A substitution is carried out in the parts of a clause.

ghost use Rattle.std.specs.Prelude.{◌≡◌, ◌∷◌, All, length, IfOk, IfErr, IsErrOf};
ghost use Rattle.unify_model.specs.Substituting.{substituted_all};
ghost use Rattle.term_store.specs.Trees.{trees_at, AreIn, HaveTrees, Keeps};
ghost use Rattle.substitution.specs.Weights.{IsOf, images};
ghost use Rattle.substitution.specs.Made.{IsPastAny};
ghost use Rattle.clause_model.specs.Variables.{rows_variables};
ghost use Rattle.clause_loader.specs.WellFormed.{IsNumber};
ghost use Rattle.clause_loader.specs.Carried.{number_by};
ghost use Rattle.clause_resolvent.specs.Applied.{HasRows, IsUnapplied};

use clause_loader::carried_rows;
use clause_store::{ClauseFault, Limit, RawClause, Row};
use lin_row::RowFault;
use sqlite_items::Items;
use std::alloc::Global;
use term_store::{Store, Term, TermFault};
use unify::{Subst, apply};

/// The terms with the images in them. `TooLarge` only where one is past the limits of a term.
fn applied_all(
    alloc: Global,
    store: &mut Store,
    s: &Subst,
    terms: &[Term],
) -> Result<Items<Term>, TermFault>
    requires of { IsOf store.old s.now }
    requires within { AreIn store.old terms.now }
    ensures keeps { Keeps store.old store.new }
    ensures made { IfOk result (λ rs. HaveTrees store.new rs (substituted_all (images store.old s.now) (trees_at store.old terms.now))) }
    ensures large { IsErrOf result TermFault.TooLarge → IsPastAny (substituted_all (images store.old s.now) (trees_at store.old terms.now)) }
{
    let mut all = Items::new(alloc);
    for term in terms {
        let one = apply(store, s, *term)?;
        all.push(one)?;
    }
    Ok(all)
}

/// The head and the atoms with the images in them, and these rows.
fn applied_parts(
    alloc: Global,
    store: &mut Store,
    s: &Subst,
    raw: &RawClause,
    rows: Items<Row>,
) -> Result<RawClause, TermFault>
    requires of { IsOf store.old s.now }
    requires within { AreIn store.old (raw.now.head ∷ raw.now.atoms) }
    ensures keeps { Keeps store.old store.new }
    ensures terms { IfOk result (λ r. HaveTrees store.new (r.head ∷ r.atoms) (substituted_all (images store.old s.now) (trees_at store.old (raw.now.head ∷ raw.now.atoms)))) }
    ensures rows { IfOk result (λ r. r.rows ≡ rows) }
    ensures sorts { IfOk result (λ r. r.sorts ≡ raw.now.sorts) }
    ensures large { IsErrOf result TermFault.TooLarge → IsPastAny (substituted_all (images store.old s.now) (trees_at store.old (raw.now.head ∷ raw.now.atoms))) }
{
    let head = apply(store, s, raw.head)?;
    let atoms = applied_all(alloc, store, s, raw.atoms.as_slice())?;
    let sorts = Items::from_slice(alloc, raw.sorts.as_slice())?;
    Ok(RawClause {
        head,
        rows,
        atoms,
        sorts,
    })
}

/// The head and the atoms with the images in them, and the rows with the variables that theirs become. A row out of
/// range refuses it before a head or an atom that is too large for a term.
pub(crate) fn applied(
    alloc: Global,
    store: &mut Store,
    s: &Subst,
    raw: &RawClause,
) -> Result<RawClause, ClauseFault>
    requires of { IsOf store.old s.now }
    requires within { AreIn store.old (raw.now.head ∷ raw.now.atoms) }
    requires nums { All (IsNumber (length raw.now.sorts)) (rows_variables raw.now.rows) }
    ensures keeps { Keeps store.old store.new }
    ensures terms { IfOk result (λ r. HaveTrees store.new (r.head ∷ r.atoms) (substituted_all (images store.old s.now) (trees_at store.old (raw.now.head ∷ raw.now.atoms)))) }
    ensures rows { IfOk result (λ r. HasRows (number_by raw.now.sorts (images store.old s.now)) raw.now.rows r.rows) }
    ensures sorts { IfOk result (λ r. r.sorts ≡ raw.now.sorts) }
    ensures refused { IfErr result (IsUnapplied (number_by raw.now.sorts (images store.old s.now)) raw.now.rows
        (substituted_all (images store.old s.now) (trees_at store.old (raw.now.head ∷ raw.now.atoms)))) }
{
    let sorts = raw.sorts.as_slice();
    let rows = match carried_rows(alloc, store, s, sorts, raw.rows.as_slice()) {
        Ok(rows) => rows,
        Err(RowFault::Overflow) => return Err(ClauseFault::Overflow),
        Err(RowFault::NoMemory) => return Err(ClauseFault::NoMemory),
    };
    match applied_parts(alloc, store, s, raw, rows) {
        Ok(made) => Ok(made),
        Err(TermFault::TooLarge) => Err(ClauseFault::TooLarge(Limit::Shape)),
        Err(TermFault::NoMemory) => Err(ClauseFault::NoMemory),
    }
}
