//! White and comments between tokens change nothing in a script: scripts of the same tokens are the same steps, or have a
//! fault of the same kind at the same token. There is no code here: each law is the contract of an empty function.
#![tactic(auto)]

ghost use Rattle.script_space_laws.specs.Laws.{MultiplierTurns, NumberTurns, ShownTurns, StepsAreTheSame, ScriptsAreTheSame, LinesAreTheSame, SpacesChangeNoScript, SpacesChangeNoLine};

/// With more turns than there are bytes the multipliers of a certificate are the same, and so are the numbers of a list
/// and what shows each of its rows.
pub fn list_turns_never_decide()
    ensures multipliers { MultiplierTurns }
    ensures numbers { NumberTurns }
    ensures shown { ShownTurns }
{}

/// From texts of the same tokens the same step is read, or there is the same fault; and texts of the same tokens remain.
/// So it is with whole scripts and single lines.
pub fn scripts_are_the_same()
    ensures steps { StepsAreTheSame }
    ensures scripts { ScriptsAreTheSame }
    ensures lines { LinesAreTheSame }
{}

/// Scripts, and lines, of the same tokens are the same steps, or have a fault of the same kind at the same token.
pub fn spaces_change_no_script()
    ensures scripts { SpacesChangeNoScript }
    ensures lines { SpacesChangeNoLine }
{}
