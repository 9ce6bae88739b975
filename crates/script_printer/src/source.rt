//! Prints source clauses.

ghost use Rattle.std.specs.Prelude.{◌≡◌, ◌++◌, OnOk, map, string_bytes, codes};
ghost use Rattle.print_model.specs.Joined.{joined};
ghost use Rattle.print_model.specs.Terms.{atom_text};
ghost use Rattle.print_model.specs.Rows.{row_text};
ghost use Rattle.print_model.specs.Clauses as constraints;
ghost use Rattle.print_model.specs.Clauses.{num_text};
ghost use Rattle.script_grammar.specs.ScriptText as spec;

use crate::tree::{atom, term};
use clause_printer::{loose_nums, print_braces};
use clause_store::SourceClause;
use clp_model::Tree;
use term_store::NoMemory;

#[tactic(auto, using(std::proofs::lemmas::List::append_assoc))]
fn equation(equation: &(Tree, Tree), into: &mut String) -> Result<(), NoMemory>
    ensures { OnOk result (string_bytes into.new ≡ string_bytes into.old ++ spec.equation_text equation.now) }
{
    term(&equation.0, into)?;
    into.push_str(" = ")?;
    term(&equation.1, into)
}

/// Appends the equations and the atoms, the first after this mark.
#[tactic(auto, using(std::proofs::lemmas::List::append_assoc))]
fn others(
    first_mark: &str,
    equations: &[(Tree, Tree)],
    atoms: &[Tree],
    into: &mut String,
) -> Result<(), NoMemory>
    ensures { OnOk result (string_bytes into.new ≡ string_bytes into.old ++ joined first_mark.now (codes ", ") (map spec.equation_text equations.now ++ map atom_text atoms.now)) }
{
    let mut mark = first_mark;
    for sides in equations {
        into.push_str(mark)?;
        equation(sides, into)?;
        mark = ", ";
    }
    for tree in atoms {
        into.push_str(mark)?;
        atom(tree, into)?;
        mark = ", ";
    }
    Ok(())
}

/// Appends ` :- ` and the goals, if there are any.
#[tactic(auto, using(std::proofs::lemmas::List::append_assoc, clause_printer::proofs::Bodies::no_constraint, clause_printer::proofs::Bodies::some_constraint))]
fn body(source: &SourceClause, nums: &[usize], into: &mut String) -> Result<(), NoMemory>
    ensures { OnOk result (string_bytes into.new ≡ string_bytes into.old ++ joined (codes " :- ") (codes ", ") (constraints.braces (map row_text source.now.rows ++ map num_text nums.now) ++ (map spec.equation_text source.now.equations ++ map atom_text source.now.atoms))) }
{
    let rows = source.rows.as_slice();
    let equations = source.equations.as_slice();
    let atoms = source.atoms.as_slice();
    if rows.is_empty() && nums.is_empty() {
        return others(" :- ", equations, atoms, into);
    }
    into.push_str(" :- ")?;
    print_braces(rows, nums, into)?;
    others(", ", equations, atoms, into)
}

/// Appends a source clause without its end, with its own numbers of variables.
#[tactic(auto, using(std::proofs::lemmas::List::append_assoc), unfolding(script_grammar::specs::ScriptText::source_text))]
pub fn source(source: &SourceClause, into: &mut String) -> Result<(), NoMemory>
    ensures { OnOk result (string_bytes into.new ≡ string_bytes into.old ++ spec.source_text source.now) }
{
    let nums = loose_nums(
        *into.allocator(),
        source.rows.as_slice(),
        source.sorts.as_slice(),
    )?;
    atom(&source.head, into)?;
    body(source, nums.as_slice(), into)
}
