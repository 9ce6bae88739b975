//! Laws of the tokens of programs and scripts: what white and comments change, and which
//! mark is taken. There is no code here: each law is the
//! contract of an empty function.
#![tactic(auto)]

ghost use Rattle.token_laws.specs.Laws.{WhiteChangesNothing, LineChangesNothing, CommentChangesNothing, LongestMarkIsTaken};

/// White in front of a text changes nothing.
pub fn white_changes_nothing()
    ensures { WhiteChangesNothing }
{}

/// A comment from `%` to the next line feed in front of a text changes nothing.
pub fn line_changes_nothing()
    ensures { LineChangesNothing }
{}

/// A comment from `/*` to the next `*/` in front of a text changes nothing.
pub fn comment_changes_nothing()
    ensures { CommentChangesNothing }
{}

/// Of the marks with which a text begins the longest is taken.
pub fn longest_mark_is_taken()
    ensures { LongestMarkIsTaken }
{}
