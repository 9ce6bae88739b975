//! What holds of a clause that is folded, once each condition of folding holds. There is no code here: each law is the
//! contract of an empty function.
#![tactic(auto)]

ghost use Rattle.fold_laws.specs.Laws.{AcceptedFoldIsFolded};

/// Where the conditions of folding hold and the rows that are to be shown are entailed, the folded clause is what the
/// rank asks of a folding: the definition's atoms become atoms of the clause, the images of its internal variables stand
/// nowhere else in the folded clause, the clause entails its rows, and what is kept entails what is dropped.
pub fn accepted_fold_is_folded()
    ensures { AcceptedFoldIsFolded }
{}
