//! Laws of the grammar of programs and of what it stands for: the clauses that are read can be loaded. There is no code
//! here: each law is the contract of an empty function, and the lemmas in `proofs/` are there for the crates above.
#![tactic(auto)]

ghost use Rattle.grammar_laws.specs.Laws.{ReadProgramsCanBeLoaded, ReadGoalsCanBeLoaded, ReadClausesCanBeLoaded, FormedDraftsCanBeLoaded, RowsAreKept, RowsHaveTheVariables};

/// A program has at most 4,096 clauses. The head and the body atoms of each are applications whose predicates can be
/// kept, each variable has its sort, its rows are in normal form and in range over variables that are numbers, no name
/// is too long, and `true` without arguments is no predicate.
pub fn read_programs_can_be_loaded()
    ensures { ReadProgramsCanBeLoaded }
{}

/// So is a goal, which is a text of its own.
pub fn read_goals_can_be_loaded()
    ensures { ReadGoalsCanBeLoaded }
{}

/// So is a clause that stands within a text.
pub fn read_clauses_can_be_loaded()
    ensures { ReadClausesCanBeLoaded }
{}

/// So is what stands for a clause whose tokens and grammar are right.
pub fn formed_drafts_can_be_loaded()
    ensures { FormedDraftsCanBeLoaded }
{}

/// The row of a comparison is in normal form and in range, and has no variables but those of the comparison's names.
pub fn rows_are_kept()
    ensures kept { RowsAreKept }
    ensures variables { RowsHaveTheVariables }
{}
