//! What an accepted step is: the rewriting of its rule, under the conditions of the rule. And what the history keeps of
//! it: the step with the certificate by which it was carried out, which is accepted again and makes the same state.
//! There is no code here: each law is the contract of an empty function.
#![tactic(auto)]

ghost use Rattle.fill_laws.specs.Laws.{ShownRowIsAccepted, ShownFalsehoodIsAccepted, ShownRowIsEntailed, ShownFalsehoodHasNoSolution, ShownRowsAreAccepted, ShownRowsAreEntailed, AcceptedStepIsItsRewriting, RewritingOfItsRule, FilledStepRunsToTheSame, FilledRunRunsToTheSame, FilledScriptRunsToTheSame};

/// The certificate by which a row is shown, given or found, has no fault; and the row is entailed.
pub fn shown_rows_are_entailed()
    ensures accepted { ShownRowIsAccepted }
    ensures entailed { ShownRowIsEntailed }
{}

/// So have those by which several rows are shown, one after another: there is one for each, and each row is entailed.
pub fn several_shown_rows_are_entailed()
    ensures accepted { ShownRowsAreAccepted }
    ensures entailed { ShownRowsAreEntailed }
{}

/// So has that by which rows are shown false; and they have no common solution.
pub fn shown_falsehood_has_no_solution()
    ensures accepted { ShownFalsehoodIsAccepted }
    ensures unsatisfiable { ShownFalsehoodHasNoSolution }
{}

/// An accepted step is the rewriting of its rule, whose conditions hold; and where they hold, the step makes what the
/// rewriting makes.
pub fn accepted_step_is_its_rewriting()
    ensures accepted { AcceptedStepIsItsRewriting }
    ensures rule { RewritingOfItsRule }
{}

/// The step that an accepted step puts last in the history is accepted in its place and makes the same state; and so do
/// the steps of a script.
pub fn filled_steps_run_to_the_same()
    ensures step { FilledStepRunsToTheSame }
    ensures run { FilledRunRunsToTheSame }
    ensures script { FilledScriptRunsToTheSame }
{}
