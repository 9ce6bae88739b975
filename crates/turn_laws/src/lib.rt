//! The numbers that bound the turns of the grammar's lists never decide: with any greater number each reads the same.
//! There is no code here: each law is the contract of an empty function, and the lemmas in `proofs/` are there for the
//! crates above.
#![tactic(auto)]

ghost use Rattle.turn_laws.specs.Laws.{ArgumentTurns, GoalTurns, ConstraintTurns, ProductTurns, SumTurns, DirectiveTurns, ClauseTurns, ProgramTurns};

/// The arguments of a name, the goals of a body and what stands in braces: with more turns than there are bytes they are
/// the same.
pub fn list_turns_never_decide()
    ensures arguments { ArgumentTurns }
    ensures goals { GoalTurns }
    ensures constraints { ConstraintTurns }
{}

/// So are products and sums.
pub fn chain_turns_never_decide()
    ensures products { ProductTurns }
    ensures sums { SumTurns }
{}

/// So are directives, the clauses of a program, and a program as a whole.
pub fn clause_turns_never_decide()
    ensures directives { DirectiveTurns }
    ensures clauses { ClauseTurns }
    ensures programs { ProgramTurns }
{}
