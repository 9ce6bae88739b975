//! Laws of printed programs that are parsed: what is printed of a term, a row or a clause is parsed as just what stands for
//! it. There is no code here: each law is the contract of an empty function, and the lemmas in `proofs/` are there for the
//! crates above.
#![tactic(auto)]

ghost use Rattle.parsing_laws.specs.Laws.{PrintedTermsAreParsed, PrintedRowsAreParsed, PrintedClausesAreParsed, PrintedProgramsAreParsed};

/// A printed term is parsed as its expression, and a printed row as its comparison, each with its places, wherever it
/// stands.
pub fn printed_pieces_are_parsed()
    ensures terms { PrintedTermsAreParsed }
    ensures rows { PrintedRowsAreParsed }
{}

/// A printed clause within the limits is parsed as its draft, whatever follows its end, and a printed program as the
/// drafts of its clauses.
pub fn printed_programs_are_parsed()
    ensures clauses { PrintedClausesAreParsed }
    ensures programs { PrintedProgramsAreParsed }
{}
