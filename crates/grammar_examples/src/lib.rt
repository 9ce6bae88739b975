//! Worked examples of texts that are read, written by hand. There is no code here: each example is the contract of an
//! empty function.
#![tactic(auto)]

ghost use Rattle.grammar_examples.specs.Read.{AFact, ListsAndNumbers, Relations, SortConstraint, BarList, ComputedArgument, GoalAndClause};
ghost use Rattle.grammar_examples.specs.Faults.{ProductOfVariables, NoAtom, ReservedHead, ZeroDivisor, LooseBrace, SumOutOfRange, BehindGoal};

/// What texts stand for.
pub fn programs()
    ensures a_fact { AFact }
    ensures lists_and_numbers { ListsAndNumbers }
    ensures relations { Relations }
    ensures sort_constraint { SortConstraint }
    ensures bar_list { BarList }
    ensures computed_argument { ComputedArgument }
    ensures goal_and_clause { GoalAndClause }
{}

/// The first fault of texts.
pub fn faults()
    ensures product { ProductOfVariables }
    ensures no_atom { NoAtom }
    ensures reserved { ReservedHead }
    ensures zero_divisor { ZeroDivisor }
    ensures brace { LooseBrace }
    ensures out_of_range { SumOutOfRange }
    ensures behind_goal { BehindGoal }
{}
