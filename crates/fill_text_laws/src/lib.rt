//! A script whose certificates are written out: its text reads as just the steps of the history, and these make the same
//! state of the same program. There is no code here: each law is the contract of an empty function.
#![tactic(auto)]

ghost use Rattle.fill_text_laws.specs.Laws.{FilledStepIsInRange, FilledStepsAreInRange, FilledStepKeepsScript, FilledStepsAreAScript, FilledStepIsPrintable, FilledStepsArePrintable, ReplayedStepsAreAScript, ReplayIsFilled};

/// A step of the history can be written where the given one could, and a history has no more steps than a script may
/// have.
pub fn filled_steps_are_a_script()
    ensures step { FilledStepIsInRange }
    ensures run { FilledStepsAreInRange }
    ensures step_script { FilledStepKeepsScript }
    ensures run_script { FilledStepsAreAScript }
{}

/// A step of the history can be printed where the given one was read: a definition there has the source of its canonical
/// clause.
pub fn filled_steps_are_printable()
    ensures step { FilledStepIsPrintable }
    ensures run { FilledStepsArePrintable }
{}

/// The history of an accepted replay is a script, and its text is the given script with the certificates written out.
pub fn replay_is_filled()
    ensures script { ReplayedStepsAreAScript }
    ensures fills { ReplayIsFilled }
{}
