//! Worked examples of printed clauses, written by hand. There is no code here: each example is the contract of an
//! empty function.
#![tactic(auto)]

ghost use Rattle.print_examples.specs.Printed.{AFact, Lists, ListNamesAsPredicates, QuotedNames, RowsAndNums, NumsAlone, ConstantRow};

/// Facts, lists, names that are quoted, rows with Num variables in no row, and rows without variables.
pub fn clauses()
    ensures a_fact { AFact }
    ensures lists { Lists }
    ensures list_names { ListNamesAsPredicates }
    ensures quoted_names { QuotedNames }
    ensures rows_and_nums { RowsAndNums }
    ensures nums_alone { NumsAlone }
    ensures constant_row { ConstantRow }
{}
