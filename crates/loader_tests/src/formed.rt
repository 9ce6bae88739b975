//! Whether source clauses are ones that loading takes.

ghost use Rattle.std.specs.Prelude.{◌≡◌, ◌<◌, ◌^◌, All, IsTrue, length};
ghost use Rattle.clp_model.specs.Trees.{variables, variables_in};
ghost use Rattle.clause_model.specs.Variables.{row_variables, rows_variables};
ghost use Rattle.clause_store.specs.Stored.{IsNum};
ghost use Rattle.clause_loader.specs.WellFormed.{IsNumber, IsWellFormed, IsNarrowAtom, IsNarrow, side_variables};

use clause_store::{Row, SourceClause, Tree, sort_in};
use clp_model::Sort;

/// Whether a number is one of so many variables.
fn is_number(number: u32, count: usize) -> bool
    ensures { IsTrue result → IsNumber count number }
{
    number > 0 && number as usize <= count
}

/// Whether each variable of a term is one of so many.
#[tactic(auto, using(clp_model::proofs::Trees::variables_app, clp_model::proofs::Trees::variables_var))]
fn numbered(tree: &Tree, count: usize) -> bool
    ensures { IsTrue result → All (IsNumber count) (variables tree.now) }
{
    match tree {
        Tree::Var(number) => is_number(*number, count),
        Tree::App(_, args) => {
            for arg in args.as_slice() {
                if !numbered(arg, count) {
                    return false;
                }
            }
            true
        }
    }
}

/// Whether each variable of these terms is one of so many.
fn all_numbered(trees: &[Tree], count: usize) -> bool
    ensures { IsTrue result → All (IsNumber count) (variables_in trees.now) }
{
    for tree in trees {
        if !numbered(tree, count) {
            return false;
        }
    }
    true
}

/// Whether each variable of the sides of these equations is one of so many.
fn sides_numbered(equations: &[(Tree, Tree)], count: usize) -> bool
    ensures { IsTrue result → All (IsNumber count) (side_variables equations.now) }
{
    for equation in equations {
        if !numbered(&equation.0, count) {
            return false;
        }
        if !numbered(&equation.1, count) {
            return false;
        }
    }
    true
}

/// Whether a variable has its place in the sorts, and is Num there.
fn is_num(number: u32, sorts: &[Sort]) -> bool
    ensures { IsTrue result → IsNum sorts.now number }
{
    is_number(number, sorts.len()) && sort_in(sorts, number) == Sort::Num
}

/// Whether this holds of each variable of a row.
fn are_num(row: &Row, sorts: &[Sort]) -> bool
    ensures { IsTrue result → All (IsNum sorts.now) (row_variables row.now) }
{
    for pair in row.pairs() {
        if !is_num(pair.0, sorts) {
            return false;
        }
    }
    true
}

/// Whether it holds of each variable of these rows.
fn all_num(rows: &[Row], sorts: &[Sort]) -> bool
    ensures { IsTrue result → All (IsNum sorts.now) (rows_variables rows.now) }
{
    for row in rows {
        if !are_num(row, sorts) {
            return false;
        }
    }
    true
}

/// Whether a term is an application with fewer than 2^32 arguments.
#[tactic(auto, using(clp_model::proofs::Trees::arguments_of_app, clp_model::proofs::Trees::application_app))]
fn is_atom(tree: &Tree) -> bool
    ensures { IsTrue result → IsNarrowAtom tree.now }
{
    match tree {
        Tree::Var(_) => false,
        Tree::App(_, args) => args.len() < 0x1_0000_0000,
    }
}

/// Whether each term is such an application.
fn are_atoms(trees: &[Tree]) -> bool
    ensures { IsTrue result → All IsNarrowAtom trees.now }
{
    for tree in trees {
        if !is_atom(tree) {
            return false;
        }
    }
    true
}

/// Whether a source clause is one that loading takes.
pub fn is_well_formed(s: &SourceClause) -> bool
    ensures { IsTrue result → IsWellFormed s.now × IsNarrow s.now }
{
    let count = s.sorts.len();
    is_atom(&s.head)
        && are_atoms(s.atoms.as_slice())
        && numbered(&s.head, count)
        && all_numbered(s.atoms.as_slice(), count)
        && sides_numbered(s.equations.as_slice(), count)
        && all_num(s.rows.as_slice(), s.sorts.as_slice())
}

/// Whether each of these source clauses is.
pub fn are_well_formed(sources: &[SourceClause]) -> bool
    ensures formed { IsTrue result → All IsWellFormed sources.now }
    ensures narrow { IsTrue result → All IsNarrow sources.now }
{
    for source in sources {
        if !is_well_formed(source) {
            return false;
        }
    }
    true
}
