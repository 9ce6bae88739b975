//! What solving, loading and the rules keep of names and predicates. Names are spoken of by a test p of names,
//! predicates by a test q of predicates, so that one law serves for the names of a program, for names of a certain
//! length and for those of a grammar. There is no code here: each law is the contract of an empty function.
#![tactic(auto)]

ghost use Rattle.name_laws.specs.Laws.{UnifierKeepsNames, CanonicalFormKeepsNames, NewClauseKeepsNames, SolvedClauseKeepsNames, LoadedClauseKeepsNames, LoadingKeepsNames, ResolventKeepsNames, WithoutAtomKeepsNames, RowRulesKeepNames, FoldedClauseKeepsNames, StartKeepsNames, StepKeepsNames, RunKeepsNames};

/// The names in the images of a most general unifier are among those of the equations.
pub fn unifier_keeps_names()
    ensures { UnifierKeepsNames }
{}

/// The canonical form of a clause has its names and predicates, and so has what is made of a new clause.
pub fn canonical_form_keeps_names()
    ensures form { CanonicalFormKeepsNames }
    ensures made { NewClauseKeepsNames }
{}

/// A clause whose equations are solved has the predicates of the clause, and names of it and of its equations.
pub fn solved_clause_keeps_names()
    ensures { SolvedClauseKeepsNames }
{}

/// So has the clause that a source clause is loaded as; and so at each place of a loaded program.
pub fn loading_keeps_names()
    ensures loaded { LoadedClauseKeepsNames }
    ensures program { LoadingKeepsNames }
{}

/// A resolvent has names and predicates of its two clauses; a clause without one of its atoms, with other rows, or with
/// a variable in the place of another has those of the clause; and a folded clause has those of the clause and of the
/// definition.
pub fn rules_keep_names()
    ensures resolvent { ResolventKeepsNames }
    ensures without { WithoutAtomKeepsNames }
    ensures rows { RowRulesKeepNames }
    ensures folded { FoldedClauseKeepsNames }
{}

/// The live clauses of a start state have names and predicates of the loaded clauses. The live clauses and the kept
/// definitions after an accepted step or script have names and predicates of those before and of the definitions that it
/// adds.
pub fn steps_keep_names()
    ensures start { StartKeepsNames }
    ensures step { StepKeepsNames }
    ensures script { RunKeepsNames }
{}
