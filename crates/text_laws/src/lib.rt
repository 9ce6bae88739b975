//! Laws of the texts of programs: what is printed is in UTF-8, and is read and loaded again as just these clauses. There is
//! no code here: each law is the contract of an empty function, and the lemmas in `proofs/` are there for the crates above.
#![tactic(auto)]

ghost use Rattle.text_laws.specs.Laws.{PrintedProgramsAreTexts, PrintedProgramsAreReadAgain, PrintedProgramsAreLoadedAgain, PrintedSourcesAreTexts, PrintedSourcesAreThemselves};

/// What is printed of clauses that can be printed is in UTF-8.
pub fn printed_programs_are_texts()
    ensures { PrintedProgramsAreTexts }
{}

/// What is printed of at most 4,096 clauses that can be printed is read as their sources; and where the sizes of the clauses
/// are together at most 8,388,608, these sources are loaded as just these clauses, each in its place.
pub fn printed_programs_are_loaded_again()
    ensures read { PrintedProgramsAreReadAgain }
    ensures loaded { PrintedProgramsAreLoadedAgain }
{}

/// What is printed of the source of a clause that can be printed is in UTF-8, and is read as just this source, with the
/// numbers of its variables.
pub fn printed_sources_are_themselves()
    ensures texts { PrintedSourcesAreTexts }
    ensures read { PrintedSourcesAreThemselves }
{}
