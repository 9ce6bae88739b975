//! What every state of an accepted run is: its live clauses are ranked over its base, and so prove just what the base
//! proves. The rank is that of total correctness by Tamaki and Sato (1984). There is no code here: each law is the
//! contract of an empty function.
#![tactic(auto)]

ghost use Rattle.state_laws.specs.Laws.{LoadedClausesAreHeld, LoadedProgramsAreHeld, StartStateIsKept, StartStateHasItsClauses, AcceptedStepKeepsState, AcceptedStepKeepsBase, AcceptedRunKeepsState, AcceptedRunKeepsBase, AcceptedRunKeepsFormedSteps, RunOfLoadedProgramIsKept, LiveAndBaseProveTheSame, LiveAndLoadedProveTheSame, RunKeepsProvability, LoadingKeepsProvability, RunOfLoadedProgramKeepsProvability, RunOfLoadedProgramKeepsItsPredicates};

/// A well-formed source clause is loaded as a clause without equations, whose head and atoms are applications, whose
/// variables have their places, and whose rows have Num variables alone; and this clause is canonical. So is each
/// clause of a loaded program, and its predicates are the program's.
pub fn loaded_clauses_are_held()
    ensures clause { LoadedClausesAreHeld }
    ensures program { LoadedProgramsAreHeld }
{}

/// The start state of such clauses is ranked, and they are its base.
pub fn start_state_is_kept()
    ensures state { StartStateIsKept }
    ensures clauses { StartStateHasItsClauses }
{}

/// An accepted step keeps the rank, where the variables of a row that it adds rise and the source of a definition is
/// well-formed; and the base grows by the definition alone.
pub fn accepted_step_keeps_state()
    ensures state { AcceptedStepKeepsState }
    ensures base { AcceptedStepKeepsBase }
{}

/// So does an accepted run of such steps; and after one from a loaded program the live clauses are ranked, held and
/// canonical.
pub fn accepted_run_keeps_state()
    ensures state { AcceptedRunKeepsState }
    ensures base { AcceptedRunKeepsBase }
    ensures loaded { RunOfLoadedProgramIsKept }
{}

/// The steps that an accepted run of such steps puts into the history are such steps.
pub fn accepted_run_keeps_formed_steps()
    ensures { AcceptedRunKeepsFormedSteps }
{}

/// In such a state the live clauses and the base prove the same; and of the initial predicates the loaded clauses alone
/// prove the same, since definitions prove nothing of them.
pub fn live_and_base_prove_the_same()
    ensures base { LiveAndBaseProveTheSame }
    ensures loaded { LiveAndLoadedProveTheSame }
{}

/// After an accepted run the live clauses prove what the clauses at its start and the definitions of its steps prove.
pub fn run_keeps_provability()
    ensures { RunKeepsProvability }
{}

/// A loaded program proves what its source proves. The live clauses after an accepted run from it prove what the source
/// and the definitions of the steps prove, and of the predicates of the source what the source proves.
pub fn loading_keeps_provability()
    ensures loaded { LoadingKeepsProvability }
    ensures run { RunOfLoadedProgramKeepsProvability }
    ensures initial { RunOfLoadedProgramKeepsItsPredicates }
{}
