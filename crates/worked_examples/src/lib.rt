//! Worked examples of the definitions: lowest terms, rows and equations, instances and proofs,
//! canonical forms, merges and their refusals, unfolding, printed text. There is no code here: each
//! example is the contract of an empty function, and its words stand above its statement in `specs/`.
#![tactic(auto)]

ghost use Rattle.worked_examples.specs.Numbers.{SixQuarters, MinusSixQuarters, TwoQuarters, RowAtWholeNumbers, RowAtHalves, StrictRow, RowBelow};
ghost use Rattle.worked_examples.specs.Instances.{EquationAtA, EquationAtB, InstanceAtA, NoInstance, ProofOfTwoNodes, NotProvable, NotProvableAbove, InstanceWithRow, NoInstanceWithRow};
ghost use Rattle.worked_examples.specs.Merges.{CanonicalNumbers, SizeAndDepth, MergeGives, LiveAfterMerge, PrintedAfterMerge, MergeOfNoClause, MergeOfNoAtom, MergeOfOneAtom, MergeOfUnequalAtoms};
ghost use Rattle.worked_examples.specs.Unfoldings.{UnfoldWithoutResolvent, LiveWithoutResolvent, PrintedWithoutResolvent, UnfoldWithItself, LiveAfterUnfold, PrintedAfterUnfold};
ghost use Rattle.worked_examples.specs.Printed.{PrintedClause, PrintedLongerClause, PredicatesOnce, NoDefinitions};

/// 6 over 4 is 3/2, -6 over 4 is -3/2, and 2 over 4 is the same value as 1 over 2.
pub fn lowest_terms()
    ensures six_quarters { SixQuarters }
    ensures minus_six_quarters { MinusSixQuarters }
    ensures two_quarters { TwoQuarters }
{}

/// `2*V1 - V2 + 1` is 0 where V1 is 1 and V2 is 3, and where V1 is 1/2 and V2 is 2;
/// it is less than 0 where V1 is 1/2 and V2 is 5/2.
pub fn rows()
    ensures at_whole_numbers { RowAtWholeNumbers }
    ensures at_halves { RowAtHalves }
    ensures strict { StrictRow }
    ensures below { RowBelow }
{}

/// `f(V1) = f(a)` holds where V1 is a, and does not where V1 is b.
pub fn equations()
    ensures at_a { EquationAtA }
    ensures at_b { EquationAtB }
{}

/// `p(a)` with the body `q(a)` is an instance of `p(V1) :- q(V1)`, and with the body `q(b)` it is not.
pub fn instances()
    ensures at_a { InstanceAtA }
    ensures at_no_value { NoInstance }
{}

/// `p(1/2)` is an instance of `p(V1)` with the row `V1 - 1 =< 0`, and `p(2)` is not.
pub fn instances_with_rows()
    ensures at_half { InstanceWithRow }
    ensures at_two { NoInstanceWithRow }
{}

/// From `p(V1) :- q(V1)` and `q(a)` the atom `p(a)` has a proof of two nodes, and neither `q(b)` nor
/// `p(b)` has a proof.
pub fn proofs_of_atoms()
    ensures of_two_nodes { ProofOfTwoNodes }
    ensures no_proof { NotProvable }
    ensures no_proof_above { NotProvableAbove }
{}

/// The canonical form of `p(V5,V2) :- q(V2,V7)` is `p(V1,V2) :- q(V2,V3)`, of size 6 and depth 2.
pub fn canonical_numbers()
    ensures numbers { CanonicalNumbers }
    ensures size_and_depth { SizeAndDepth }
{}

/// `merge 1 at 1,2.` makes of `p :- q, q` the clause `p :- q` with the id 2, and clause 1 is dead then;
/// `p :- q.` is written.
pub fn merge_of_equal_atoms()
    ensures gives { MergeGives }
    ensures live { LiveAfterMerge }
    ensures written { PrintedAfterMerge }
{}

/// Merges that are refused: of no clause, no atom, one atom twice, and atoms that aren't equal.
pub fn refused_merges()
    ensures no_clause { MergeOfNoClause }
    ensures no_atom { MergeOfNoAtom }
    ensures one_atom { MergeOfOneAtom }
    ensures unequal_atoms { MergeOfUnequalAtoms }
{}

/// `unfold 1 at 1.` on `p :- q.` and `r.` takes clause 1 away, and nothing comes in its place, since no
/// head is `q`; `r.` is written.
pub fn unfolding_without_resolvent()
    ensures gives { UnfoldWithoutResolvent }
    ensures live { LiveWithoutResolvent }
    ensures written { PrintedWithoutResolvent }
{}

/// `unfold 1 at 1.` on `p :- p.` and `p.` unfolds the clause with itself, too: then `p.`, `p :- p.` and
/// `p.` with the ids 2, 3 and 4 are the program, and are written.
pub fn unfolding_with_itself()
    ensures gives { UnfoldWithItself }
    ensures live { LiveAfterUnfold }
    ensures written { PrintedAfterUnfold }
{}

/// The text of two clauses.
pub fn printed_clauses()
    ensures one_atom { PrintedClause }
    ensures two_atoms { PrintedLongerClause }
{}

/// The predicates of a program are listed once each, and unfolding and merging define none.
pub fn predicates_and_definitions()
    ensures once { PredicatesOnce }
    ensures no_definitions { NoDefinitions }
{}
