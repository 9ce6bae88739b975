//! Worked examples of linear rows: forms, normal forms, eliminations, certificates and chains, with values worked out
//! by hand. There is no code here: each example is the contract of an empty function, and its words stand above its
//! statement in `specs/`.
#![tactic(auto)]

ghost use Rattle.linear_examples.specs.Rows.{GcdOfTwelveAndEighteen, CombinedForms, NormalEquation, NormalInequality, NormalConstants, RenamedRows, NegatedRows, FlippedRow};
ghost use Rattle.linear_examples.specs.Eliminations.{FactorsOfFourAndSix, ByAnEquation, ByBounds, ByUpperBoundsAlone, RepeatsAndConstants};
ghost use Rattle.linear_examples.specs.Chains.{ChainShows, PartShows, NoPartForStrict, ChainFindsNothing, ChainShowsFalse, NoNegativeMultiplier, ChainLeavesTheRowLimit, ChainAtTheMultiplierLimit, ChainLeavesTheMultiplierLimit};

/// Divisors, combinations, normal forms, new names and negations of small rows.
pub fn rows()
    ensures divisors { GcdOfTwelveAndEighteen }
    ensures combined { CombinedForms }
    ensures normal_equation { NormalEquation }
    ensures normal_inequality { NormalInequality }
    ensures normal_constants { NormalConstants }
    ensures renamed { RenamedRows }
    ensures negated { NegatedRows }
    ensures flipped { FlippedRow }
{}

/// Eliminations of V1 by an equation, by bounds on both sides and on one, with repeats and constant rows.
pub fn eliminations()
    ensures factors { FactorsOfFourAndSix }
    ensures by_an_equation { ByAnEquation }
    ensures by_bounds { ByBounds }
    ensures by_upper_bounds_alone { ByUpperBoundsAlone }
    ensures repeats_and_constants { RepeatsAndConstants }
{}

/// A certificate that the chain finds, one that it does not, falsehood by two equations, and chains
/// at their limits and past them.
pub fn chains()
    ensures shows { ChainShows }
    ensures part_shows { PartShows }
    ensures no_part_for_strict { NoPartForStrict }
    ensures finds_nothing { ChainFindsNothing }
    ensures shows_false { ChainShowsFalse }
    ensures no_negative_multiplier { NoNegativeMultiplier }
    ensures leaves_the_row_limit { ChainLeavesTheRowLimit }
    ensures at_the_multiplier_limit { ChainAtTheMultiplierLimit }
    ensures leaves_the_multiplier_limit { ChainLeavesTheMultiplierLimit }
{}
