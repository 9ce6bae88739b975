//! White and comments between tokens change nothing: texts of the same tokens stand for the same clauses, or have a fault
//! of the same kind at the same token. There is no code here: each law is the contract of an empty function.
#![tactic(auto)]

ghost use Rattle.space_laws.specs.Laws.{PlacesMeanNothing, DraftsAreTheSame, ClausesAreTheSame, LastClausesAreTheSame, ProgramsAreTheSame, GoalsAreTheSame, SpacesChangeNoProgram, SpacesChangeNoGoal, SpaceKeepsTokens, SpaceBetweenChangesNothing, WhiteIsSpace, LineIsSpace, CommentIsSpace, SpacesAreSpace};

/// A clause at other places stands for the same source clause, or has the same fault at the other place.
pub fn places_mean_nothing()
    ensures { PlacesMeanNothing }
{}

/// From texts of the same tokens a clause is parsed as the same draft at other places, and stands for the same source
/// clause or has the same fault; and texts of the same tokens remain.
pub fn clauses_are_the_same()
    ensures drafts { DraftsAreTheSame }
    ensures clauses { ClausesAreTheSame }
    ensures last { LastClausesAreTheSame }
{}

/// So are programs, and goals.
pub fn programs_are_the_same()
    ensures programs { ProgramsAreTheSame }
    ensures goals { GoalsAreTheSame }
{}

/// Programs of the same tokens are the same clauses, or have a fault of the same kind at the same token; and so are goals.
pub fn spaces_change_nothing()
    ensures programs { SpacesChangeNoProgram }
    ensures goals { SpacesChangeNoGoal }
{}

/// White or a comment between two tokens, which stay these two tokens, changes nothing.
pub fn space_between_changes_nothing()
    ensures tokens { SpaceKeepsTokens }
    ensures programs { SpaceBetweenChangesNothing }
{}

/// White, comments, and any number of them one after another are what may stand between two tokens.
pub fn white_and_comments_are_spaces()
    ensures white { WhiteIsSpace }
    ensures line { LineIsSpace }
    ensures comment { CommentIsSpace }
    ensures joined { SpacesAreSpace }
{}
