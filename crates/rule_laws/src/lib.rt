//! What the rules owe the rank, at clauses with rows over all rationals and all finite trees. There is no code here:
//! each law is the contract of an empty function.
#![tactic(auto)]

ghost use Rattle.rule_laws.specs.Laws.{UnfoldingUnfolds, UnfoldingKeepsRank, MergeNarrows, MergeKeepsRank, AddedRowKeepsInstances, DroppedRowKeepsInstances, ProjectedClauseKeepsInstances, EquatedClauseKeepsInstances, FalseRowsHaveNoInstance, ReplacementKeepsRank, DeletionKeepsRank, FoldingKeepsRank, SubsumptionKeepsRank, UselessKeepsRank, DefinitionKeepsRank};

/// Unfolding: each instance of the clause, with an instance of a live clause that serves its atom, is one of a
/// resolvent, and back; so the rank is kept.
pub fn unfolding_keeps_rank()
    ensures record_of { UnfoldingUnfolds }
    ensures rank { UnfoldingKeepsRank }
{}

/// Merging: the instances of the merged clause are those of the clause without one of two equal atoms; so the rank is
/// kept.
pub fn merge_keeps_rank()
    ensures record_of { MergeNarrows }
    ensures rank { MergeKeepsRank }
{}

/// The rules on constraints keep instances: a row that the rows entail is added, a row that the others entail is
/// dropped, a variable that is in no atom is eliminated from the rows, a variable takes the place of one that the
/// rows make equal to it. A clause whose rows have no solution has no instance.
pub fn row_rules_keep_instances()
    ensures added { AddedRowKeepsInstances }
    ensures dropped { DroppedRowKeepsInstances }
    ensures projected { ProjectedClauseKeepsInstances }
    ensures equated { EquatedClauseKeepsInstances }
    ensures no_solution { FalseRowsHaveNoInstance }
{}

/// Replacing a clause by the canonical form of one with the same instances keeps the rank, and so does deleting a
/// clause that has none.
pub fn row_rules_keep_rank()
    ensures replaced { ReplacementKeepsRank }
    ensures deleted { DeletionKeepsRank }
{}

/// Folding a marked clause keeps the rank: forwards the definition's instance has the folded atoms, and back whatever
/// instance of the definition has the atom as its head gives an instance of the folded clause, since the images of
/// the definition's internal variables stand nowhere else.
pub fn folding_keeps_rank()
    ensures { FoldingKeepsRank }
{}

/// Deleting a marked clause that another one covers keeps the rank, and so does deleting the clauses of predicates
/// that nothing can prove.
pub fn deletions_keep_rank()
    ensures covered { SubsumptionKeepsRank }
    ensures useless { UselessKeepsRank }
{}

/// A definition of a new predicate keeps the rank.
pub fn definition_keeps_rank()
    ensures { DefinitionKeepsRank }
{}
