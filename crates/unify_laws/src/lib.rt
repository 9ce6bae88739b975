//! The laws of the most general unifier and of one-sided matching, over all values of both sorts. There is no code
//! here: each law is the contract of an empty function.
#![tactic(auto)]

ghost use Rattle.unify_laws.specs.Laws.{UnifierIsMostGeneral, NoneIsNoSolution, UnifierIsUnique, ImageOfImageIsImage, OneImageForEach, LeastVariableStands, OtherVariablesStay, MatchedIsMatching, NoneIsNoMatching, MatchingIsUnique};

/// The valuations that make equations hold are just those under which each variable has the value of its image in the
/// most general unifier; no image changes where the images are carried out in it again; an image that is a variable is
/// this one or comes before it, and a Num variable's image is a variable.
pub fn most_general_unifier_is_one()
    ensures { UnifierIsMostGeneral }
{}

/// There is no most general unifier exactly where no valuation makes the equations hold.
pub fn none_exactly_without_valuation()
    ensures { NoneIsNoSolution }
{}

/// Whatever is a most general unifier has the same images.
pub fn most_general_unifier_is_unique()
    ensures { UnifierIsUnique }
{}

/// The image of an image is the image.
pub fn image_of_image_is_image()
    ensures { ImageOfImageIsImage }
{}

/// Variables have one image exactly where they have equal values under each valuation that makes the equations hold.
pub fn one_image_for_each_class()
    ensures { OneImageForEach }
{}

/// The variable that stands for a class of equal variables is its least Num variable, or its least variable where none
/// is Num.
pub fn least_variable_stands()
    ensures { LeastVariableStands }
{}

/// A variable that the equations do not hold stays.
pub fn other_variables_stay()
    ensures { OtherVariablesStay }
{}

/// What is matched, put in at once, makes the targets of the patterns, respects sorts and leaves other variables.
pub fn matched_is_matching()
    ensures { MatchedIsMatching }
{}

/// Nothing is matched exactly where no substitution that respects sorts makes the targets of the patterns.
pub fn none_exactly_without_matching()
    ensures { NoneIsNoMatching }
{}

/// There is one matching at most.
pub fn matching_is_unique()
    ensures { MatchingIsUnique }
{}
