ghost use Rattle.limit_laws.specs.Limits.{StartIsWithinLimits, StepKeepsLimits, RunKeepsLimits};

/// The start state of a loaded program is within the limits.
pub fn start_is_within_limits()
    ensures { StartIsWithinLimits }
{}

/// An accepted step keeps the limits.
pub fn accepted_steps_keep_limits()
    ensures { StepKeepsLimits }
{}

/// A run of accepted steps keeps the limits.
pub fn accepted_runs_keep_limits()
    ensures { RunKeepsLimits }
{}
