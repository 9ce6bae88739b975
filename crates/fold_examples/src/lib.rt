//! Worked examples of folding: what is matched, the first condition that is broken, the rows that are to be shown, the
//! folded clause. There is no code here: each example is the contract of an empty function, and its words stand above its
//! statement in `specs/`.
#![tactic(auto)]

ghost use Rattle.fold_examples.specs.Folds.{OutOfRange, GivenTwice, TooFewPositions, OtherAtom, TwoAtoms, TwoAtomsTheOtherWay, NothingLost, LostInHead, LostInKeptRow, LostByItsSort, DroppedRowNeedsNoInternal, TwoRowsToShow, WithOfWrongLength, WithOfAnyVariable, WithOfNumber, NamedImage};

/// The positions of atoms: one that there isn't, one that is given twice.
pub fn positions()
    ensures outside { OutOfRange }
    ensures again { GivenTwice }
{}

/// The atoms of a definition at positions of a clause: as many, of the same predicates, in the order of the definition.
pub fn matching()
    ensures few { TooFewPositions }
    ensures other { OtherAtom }
    ensures two { TwoAtoms }
    ensures turned { TwoAtomsTheOtherWay }
{}

/// The images of internal variables: they may not be in the head, in a row that is kept, or of another sort.
pub fn internal_variables()
    ensures none { NothingLost }
    ensures head { LostInHead }
    ensures row { LostInKeptRow }
    ensures sort { LostByItsSort }
    ensures dropped { DroppedRowNeedsNoInternal }
{}

/// Each row of the definition is to be shown, and then each row that is dropped.
pub fn rows_to_show()
    ensures { TwoRowsToShow }
{}

/// What `with` gives: as many Num variables as the definition has variables that are in none of its atoms.
pub fn named_images()
    ensures length { WithOfWrongLength }
    ensures sort { WithOfAnyVariable }
    ensures number { WithOfNumber }
    ensures image { NamedImage }
{}
