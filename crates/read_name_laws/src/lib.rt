//! Laws of the names of clauses and steps that are read: since a text is in UTF-8, so are its names. There is no code
//! here: each law is the contract of an empty function, and the lemmas in `proofs/` are there for the crates above.
#![tactic(auto)]

ghost use Rattle.read_name_laws.specs.Laws.{ReadProgramsHaveTextNames, ReadScriptsHaveTextNames, TextNamesAreOver, ReadStepsHaveKeptParts, ReadStepsAreFormed, ReadStepsAreOver};

/// Each name of each clause of a program is in UTF-8, and so is each of a script's definitions and of the predicates by
/// whose definitions it folds; and so a clause whose names and predicates pass some tests passes them with the test that a
/// name is in UTF-8 for that of names.
pub fn read_names_are_texts()
    ensures programs { ReadProgramsHaveTextNames }
    ensures scripts { ReadScriptsHaveTextNames }
    ensures over { TextNamesAreOver }
{}

/// The steps of a script can be carried out: the clauses of its definitions can be loaded, the rows that it adds are in
/// normal form, and what it adds to a program has names and predicates such as may be written, in UTF-8.
pub fn read_steps_can_be_carried_out()
    ensures parts { ReadStepsHaveKeptParts }
    ensures formed { ReadStepsAreFormed }
    ensures over { ReadStepsAreOver }
{}
