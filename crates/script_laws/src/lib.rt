//! Laws of scripts: what is printed of a step or a script is read again as just this, and what is read has numbers and
//! rows that can be printed. There is no code here: each law is the contract of an empty function, and the lemmas in
//! `proofs/` are there for the crates above.
#![tactic(auto)]

ghost use Rattle.script_laws.specs.Laws.{PrintedStepsAreReadAgain, PrintedScriptsAreReadAgain, WhatIsReadIsARow, WhatIsReadIsAStep, WhatIsReadIsAScript};

/// A printed step is read again as the step, and a printed script as its steps, where the numbers are in range and there
/// are no more steps than may be.
pub fn what_is_printed_is_read_again()
    ensures steps { PrintedStepsAreReadAgain }
    ensures scripts { PrintedScriptsAreReadAgain }
{}

/// What is read is in range: a row is in normal form, and its variables can be written; the numbers of a step fit; and a
/// script has no more steps than may be.
pub fn what_is_read_is_in_range()
    ensures row { WhatIsReadIsARow }
    ensures step { WhatIsReadIsAStep }
    ensures script { WhatIsReadIsAScript }
{}
