//! Laws of clauses with rows and equations: that their canonical form, the solving of their equations and loading
//! keep instances, over all rationals and all finite trees. There is no code here: each law is the contract of an
//! empty function.
#![tactic(auto)]

ghost use Rattle.clause_laws.specs.Laws.{CanonicalFormKeepsInstances, CanonicalFormIsItsOwn, NewClauseIsCanonical, CanonicalClauseStays, VariantsHaveOneCanonicalForm, SolvedClauseKeepsInstances, UnsolvedClauseHasNoInstance, LoadedClauseKeepsInstances, LeftOutClauseHasNoInstance, LoadingKeepsInstances, SourceIsLoadedAgain};

/// A clause and its canonical form have the same instances, and the canonical form is its own.
pub fn canonical_form_keeps_instances()
    ensures same { CanonicalFormKeepsInstances }
    ensures own { CanonicalFormIsItsOwn }
{}

/// What is made of a new clause is canonical, in range and within the limits, and a canonical clause stays as it is.
pub fn new_clause_is_canonical()
    ensures made { NewClauseIsCanonical }
    ensures stays { CanonicalClauseStays }
{}

/// Two closed clauses have one canonical form exactly where, once true constant rows and repeated rows are left out,
/// a renaming that keeps sorts maps one to the other.
pub fn variants_have_one_canonical_form()
    ensures { VariantsHaveOneCanonicalForm }
{}

/// A clause whose equations are solved has the same instances, and none where nothing solves them.
pub fn solved_clause_keeps_instances()
    ensures solved { SolvedClauseKeepsInstances }
    ensures unsolved { UnsolvedClauseHasNoInstance }
{}

/// A source clause and the clause that it is loaded as have the same instances, and one that is left out has none; so
/// at each place of a loaded program.
pub fn loading_keeps_instances()
    ensures loaded { LoadedClauseKeepsInstances }
    ensures left_out { LeftOutClauseHasNoInstance }
    ensures program { LoadingKeepsInstances }
{}

/// The source of a canonical clause, whose variables are numbered as they are first met in its printed text, is
/// loaded as this clause.
pub fn source_is_loaded_again()
    ensures { SourceIsLoadedAgain }
{}
