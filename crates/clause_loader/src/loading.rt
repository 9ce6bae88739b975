//! The clause of a source clause.

ghost use Rattle.std.specs.Prelude.{◌≡◌, Some, None, IfOk, IfSome, IfNone, IfErr, Ok, false};
ghost use Rattle.clause_model.specs.Load.{any_side_large, load_one};
ghost use Rattle.clause_model.specs.Solved.{typed_equations};
ghost use Rattle.unify.specs.Unifiers.{Unifies};
ghost use Rattle.substitution.specs.Weights.{IsOf, images};
ghost use Rattle.term_store.specs.Trees.{Keeps};
ghost use Rattle.clause_store.specs.Source.{meaning_of};
ghost use Rattle.clause_store.specs.Stored.{clause_in, IsStored};
ghost use Rattle.clause_loader.specs.WellFormed.{IsWellFormed};
ghost use Rattle.clause_loader.specs.Outcome.{IsRefusedSource};

use crate::carrying::carried;
use crate::solving::solution;
use clause_store::{Clause, ClauseFault, SourceClause, canonical};
use std::alloc::Global;
use term_store::Store;
use unify::Subst;

/// The clause of a source clause whose equations are solved.
fn solved_clause(
    alloc: Global,
    store: &mut Store,
    s: &Subst,
    source: &SourceClause,
) -> Result<Clause, ClauseFault>
    requires formed { IsWellFormed source.now }
    requires of { IsOf store.old s.now }
    requires solved { Unifies (typed_equations source.now.sorts source.now.equations) (images store.old s.now) }
    requires small { any_side_large source.now.equations ≡ false }
    ensures keeps { Keeps store.old store.new }
    ensures made { IfOk result (λ c. load_one (meaning_of source.now) ≡ Ok (Some (clause_in store.new c))) }
    ensures stored { IfOk result (λ c. IsStored store.new c) }
    ensures refused { IfErr result (IsRefusedSource (meaning_of source.now)) }
{
    let raw = carried(alloc, store, s, source)?;
    canonical(alloc, store, &raw)
}

/// The clause that a source clause is loaded as: its equations are solved, what solves them is carried out in its head,
/// rows and atoms, and the whole is brought into canonical form. `None` where nothing solves the equations. Terms of
/// equations may be left in the store; the cost does not depend on what the store held before.
///
/// # Errors
///
/// In this order, where more than one is due:
///
/// - `TooLarge(Shape)` where a side of an equation is past size 4,096 or depth 256, even where nothing solves the
///   equations;
/// - `Overflow` where the normal form of a row has a number of 2^63 or more in magnitude;
/// - `TooLarge` with the first limit that the canonical form is past.
pub fn load_one(
    alloc: Global,
    store: &mut Store,
    source: &SourceClause,
) -> Result<Option<Clause>, ClauseFault>
    requires { IsWellFormed source.now }
    ensures keeps { Keeps store.old store.new }
    ensures made { IfOk result (λ r. IfSome r (λ c. load_one (meaning_of source.now) ≡ Ok (Some (clause_in store.new c)))) }
    ensures stored { IfOk result (λ r. IfSome r (λ c. IsStored store.new c)) }
    ensures none { IfOk result (λ r. IfNone r (load_one (meaning_of source.now) ≡ Ok None)) }
    ensures refused { IfErr result (IsRefusedSource (meaning_of source.now)) }
{
    let Some(s) = solution(alloc, store, source)? else {
        return Ok(None);
    };
    Ok(Some(solved_clause(alloc, store, &s, source)?))
}
