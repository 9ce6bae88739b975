//! Laws of printed programs that were parsed: what stands for a printed row or clause has the meaning of the row or the
//! clause. There is no code here: each law is the contract of an empty function, and the lemmas in `proofs/` are there for
//! the crates above.
#![tactic(auto)]

ghost use Rattle.evaluation_laws.specs.Laws.{StandingRowsHaveTheirValue, RenumberedRowsHaveTheirValue, StandingClausesHaveTheirMeaning};

/// The comparison that stands for a printed row has the row as its value, where each variable keeps its number; and else
/// the row in new numbers, where these keep its variables apart.
pub fn standing_rows_have_their_value()
    ensures same { StandingRowsHaveTheirValue }
    ensures renumbered { RenumberedRowsHaveTheirValue }
{}

/// What stands for a printed clause means the source of the clause: its variables are numbered as they are first met in the
/// text, its lists are lists again, and its rows are kept in their order. The clause is canonical, its head and its atoms
/// are applications that are not `true` without arguments, and the variables of its rows are numbers.
pub fn standing_clauses_have_their_meaning()
    ensures { StandingClausesHaveTheirMeaning }
{}
