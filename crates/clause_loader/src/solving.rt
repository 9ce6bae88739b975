//! The equations of a source clause are solved.

ghost use Rattle.std.specs.Prelude.{◌≡◌, false, None, IfOk, IfSome, IfNone, IfErr, OnOk, Ok, Err};
ghost use Rattle.clp_model.specs.declared.limit.Limit.TheVariants.{Shape};
ghost use Rattle.clause_model.specs.Canonical.{TooLarge};
ghost use Rattle.clause_model.specs.Solved.{typed_equations};
ghost use Rattle.clause_model.specs.Load.{any_side_large, load_one};
ghost use Rattle.term_store.specs.Trees.{Keeps};
ghost use Rattle.unify.specs.Unifiers.{Unifies};
ghost use Rattle.substitution.specs.Weights.{IsOf, images};
ghost use Rattle.clause_store.specs.Source.{meaning_of};
ghost use Rattle.clause_loader.specs.Carried.{HaveEquations};
ghost use Rattle.clause_loader.specs.Outcome.{IsRefusedSource};

use crate::build::sides_of;
use clause_store::{ClauseFault, Limit, SourceClause};
use std::alloc::Global;
use term_store::{Store, Term, TermFault};
use unify::{Subst, unify};

/// The terms of the sides of a clause's equations.
fn sides(
    alloc: Global,
    store: &mut Store,
    source: &SourceClause,
) -> Result<Vec<(Term, Term)>, ClauseFault>
    ensures keeps { Keeps store.old store.new }
    ensures made { IfOk result (λ pairs. HaveEquations store.new pairs.items (typed_equations source.now.sorts source.now.equations)) }
    ensures small { OnOk result (any_side_large source.now.equations ≡ false) }
    ensures refused { IfErr result (IsRefusedSource (meaning_of source.now)) }
{
    let sorts = source.sorts.as_slice();
    match sides_of(alloc, store, sorts, source.equations.as_slice()) {
        Ok(pairs) => Ok(pairs),
        Err(TermFault::TooLarge) => Err(ClauseFault::TooLarge(Limit::Shape)),
        Err(TermFault::NoMemory) => Err(ClauseFault::NoMemory),
    }
}

/// What solves the equations of a clause, or `None` where nothing does. Where a side is past the limits of a term, the
/// clause is refused before its equations are solved.
pub(crate) fn solution(
    alloc: Global,
    store: &mut Store,
    source: &SourceClause,
) -> Result<Option<Subst>, ClauseFault>
    ensures keeps { Keeps store.old store.new }
    ensures some { IfOk result (λ r. IfSome r (λ s. Unifies (typed_equations source.now.sorts source.now.equations) (images store.new s))) }
    ensures of { IfOk result (λ r. IfSome r (λ s. IsOf store.new s)) }
    ensures small { OnOk result (any_side_large source.now.equations ≡ false) }
    ensures none { IfOk result (λ r. IfNone r (load_one (meaning_of source.now) ≡ Ok None)) }
    ensures refused { IfErr result (IsRefusedSource (meaning_of source.now)) }
{
    let pairs = sides(alloc, store, source)?;
    Ok(unify(alloc, store, pairs.as_slice())?)
}
