//! Laws of the grammar of programs: what holds of each clause and comparison that it gives, and that no text is longer
//! after them. There is no code here: each law is the contract of an empty function, and the lemmas in `proofs/` are
//! there for the crates above.
#![tactic(auto)]

ghost use Rattle.draft_laws.specs.Laws.{NodesByParts, DraftsAreFormed, LastDraftsAreFormed, ComparisonsAreFormed, DraftsShorten, ComparisonsShorten, DirectivesShorten};

/// A node is formed where its head may have as many parts and each part is formed.
pub fn nodes_by_parts()
    ensures { NodesByParts }
{}

/// The numbers of a clause are within those of tokens, its variables are among those that it counts, each name is not
/// too long and has fewer than 2^32 arguments, and each other head has as many parts as it may have.
pub fn drafts_are_formed()
    ensures ended { DraftsAreFormed }
    ensures last { LastDraftsAreFormed }
{}

/// So it is with a comparison and the variables that were named so far.
pub fn comparisons_are_formed()
    ensures { ComparisonsAreFormed }
{}

/// What remains of a text is no longer than it was.
pub fn texts_get_shorter()
    ensures drafts { DraftsShorten }
    ensures comparisons { ComparisonsShorten }
    ensures directives { DirectivesShorten }
{}
