//! Prints the terms and atoms of source clauses.

ghost use Rattle.std.specs.Prelude.{◌≡◌, ◌++◌, OnOk, map, string_bytes};
ghost use Rattle.print_model.specs.Terms.{texts, term_text, atom_text, arguments_text};
ghost use Rattle.script_printer.specs.Shapes.{HasShape};

use clause_printer::{name_text, print_variable};
use clp_model::Tree;
use term_store::NoMemory;

/// How a term is printed.
enum Shape<'a> {
    /// A list of a first element and what follows it.
    Cell(&'a Tree, &'a Tree),
    /// The empty list.
    Nil,
    /// As an atom is.
    Other,
}

#[tactic(auto, using(crate::proofs::Terms::other_var, crate::proofs::Terms::nil_app, crate::proofs::Terms::other_app))]
fn shape_of(tree: &Tree) -> Shape<'_>
    ensures { HasShape tree.now result }
{
    match tree {
        Tree::Var(_) => Shape::Other,
        Tree::App(name, args) => match args.as_slice() {
            [first, rest] if name.as_str() == "." => Shape::Cell(first, rest),
            [] if name.as_str() == "[]" => Shape::Nil,
            _ => Shape::Other,
        },
    }
}

/// Appends a term.
#[cycle(print)]
#[tactic(auto, using(std::proofs::lemmas::List::append_assoc))]
pub fn term(tree: &Tree, into: &mut String) -> Result<(), NoMemory>
    ensures { OnOk result (string_bytes into.new ≡ string_bytes into.old ++ term_text tree.now) }
{
    match shape_of(tree) {
        Shape::Cell(first, follows) => {
            into.push_str("[")?;
            term(first, into)?;
            rest(follows, into)
        }
        Shape::Nil => Ok(into.push_str("[]")?),
        Shape::Other => atom(tree, into),
    }
}

/// Appends what follows an element of a list, and the bracket that closes the list.
#[cycle(print)]
#[tactic(auto, using(std::proofs::lemmas::List::append_assoc))]
fn rest(tree: &Tree, into: &mut String) -> Result<(), NoMemory>
    ensures { OnOk result (string_bytes into.new ≡ string_bytes into.old ++ (texts tree.now).rest) }
{
    match shape_of(tree) {
        Shape::Cell(first, follows) => {
            into.push_str(",")?;
            term(first, into)?;
            rest(follows, into)
        }
        Shape::Nil => Ok(into.push_str("]")?),
        Shape::Other => {
            into.push_str("|")?;
            atom(tree, into)?;
            Ok(into.push_str("]")?)
        }
    }
}

/// Appends a head or body atom, or a term that is no list.
#[cycle(print)]
#[tactic(auto, using(std::proofs::lemmas::List::append_assoc, print_model::proofs::Applications::atom_app, print_model::proofs::Applications::atom_var, clp_model::proofs::Trees::size_app))]
pub fn atom(tree: &Tree, into: &mut String) -> Result<(), NoMemory>
    ensures { OnOk result (string_bytes into.new ≡ string_bytes into.old ++ atom_text tree.now) }
{
    match tree {
        Tree::Var(number) => print_variable(*number as usize, into),
        Tree::App(name, args) => {
            name_text(name.as_str(), into)?;
            arguments(args.as_slice(), into)
        }
    }
}

#[cycle(print)]
#[tactic(auto, using(std::proofs::lemmas::List::append_assoc, clp_model::proofs::Trees::size_positive))]
fn arguments(args: &[Tree], into: &mut String) -> Result<(), NoMemory>
    ensures { OnOk result (string_bytes into.new ≡ string_bytes into.old ++ arguments_text (map texts args.now)) }
{
    let Some((first, others)) = args.split_first() else {
        return Ok(());
    };
    into.push_str("(")?;
    term(first, into)?;
    for arg in others {
        into.push_str(",")?;
        term(arg, into)?;
    }
    into.push_str(")")?;
    Ok(())
}
