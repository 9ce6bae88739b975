//! Prints terms and atoms.

ghost use Rattle.std.specs.Prelude.{◌≡◌, ◌<◌, ◌++◌, length, IfSome, IfNone, OnOk, string_bytes};
ghost use Rattle.term_store.specs.Trees.{AreIn};
ghost use Rattle.clause_store.specs.Stored.{atom_at};
ghost use Rattle.print_model.specs.Terms as spec;
ghost use Rattle.print_model.specs.Terms.{simple, atom_text};
ghost use Rattle.clause_printer.specs.Stored.{texts_at, all_texts_at, IsCell, IsNoCell, Follows};

use crate::name::name;
use crate::row::print_variable;
use term_store::{Look, NoMemory, Store, Term};

/// What follows an element of a list.
#[derive(Clone, Copy)]
enum Rest {
    /// A further element, and what follows it.
    Cell(Term, Term),
    /// The end of the list.
    Nil,
    /// Any other term.
    Other,
}

/// The first element and the rest of a list with elements.
fn cell(name: &str, args: &[Term]) -> Option<(Term, Term)>
    ensures some { IfSome result (λ p. IsCell name.now args.now p.0 p.1) }
    ensures none { IfNone result (IsNoCell name.now args.now) }
{
    match args {
        [first, rest] if name == "." => Some((*first, *rest)),
        _ => None,
    }
}

#[tactic(auto, using(crate::proofs::Texts::at_app, crate::proofs::Texts::at_var, clp_model::proofs::Trees::size_app))]
fn rest_of(store: &Store, t: Term) -> Rest
    requires { t < length store.now }
    ensures { Follows store.now t result }
{
    match store.look(t) {
        Look::Var(_, _) => Rest::Other,
        Look::App(name, args) => match cell(name, args) {
            Some((first, rest)) => Rest::Cell(first, rest),
            None if args.is_empty() && name == "[]" => Rest::Nil,
            None => Rest::Other,
        },
    }
}

#[cycle(print)]
#[tactic(auto, using(crate::proofs::Texts::at_app, crate::proofs::Texts::at_var, clp_model::proofs::Trees::size_app))]
fn term(store: &Store, t: Term, into: &mut String) -> Result<(), NoMemory>
    requires { t < length store.now }
    ensures { OnOk result (string_bytes into.new ≡ string_bytes into.old ++ (texts_at store.now t).whole) }
{
    match store.look(t) {
        Look::Var(number, _) => print_variable(number as usize, into),
        Look::App(name, args) => match cell(name, args) {
            Some((first, rest)) => list(store, first, rest, into),
            None => application(store, name, args, into),
        },
    }
}

/// Appends a list with elements, in a loop: it has as many as the depth of a term allows.
#[cycle(print)]
#[tactic(auto, using(std::proofs::lemmas::List::append_assoc))]
fn list(store: &Store, first: Term, rest: Term, into: &mut String) -> Result<(), NoMemory>
    requires first { first < length store.now }
    requires rest { rest < length store.now }
    ensures { OnOk result (string_bytes into.new ≡ string_bytes into.old ++ (spec.cell (texts_at store.now first) (texts_at store.now rest)).whole) }
{
    into.push_str("[")?;
    term(store, first, into)?;
    let mut rest = rest;
    loop {
        match rest_of(store, rest) {
            Rest::Cell(element, follows) => {
                into.push_str(",")?;
                term(store, element, into)?;
                rest = follows;
            }
            Rest::Nil => {
                into.push_str("]")?;
                return Ok(());
            }
            Rest::Other => {
                into.push_str("|")?;
                term(store, rest, into)?;
                into.push_str("]")?;
                return Ok(());
            }
        }
    }
}

/// Appends an application that is no list with elements.
#[cycle(print)]
fn application(store: &Store, of: &str, args: &[Term], into: &mut String) -> Result<(), NoMemory>
    requires { AreIn store.now args.now }
    ensures { OnOk result (string_bytes into.new ≡ string_bytes into.old ++ (simple of.now (all_texts_at store.now args.now)).whole) }
{
    if args.is_empty() && of == "[]" {
        into.push_str("[]")?;
        return Ok(());
    }
    applied(store, of, args, into)
}

/// Appends a name and its arguments.
#[cycle(print)]
#[tactic(auto, using(std::proofs::lemmas::List::append_assoc))]
fn applied(store: &Store, of: &str, args: &[Term], into: &mut String) -> Result<(), NoMemory>
    requires { AreIn store.now args.now }
    ensures { OnOk result (string_bytes into.new ≡ string_bytes into.old ++ spec.applied of.now (all_texts_at store.now args.now)) }
{
    name(of, into)?;
    arguments(store, args, into)
}

#[cycle(print)]
#[tactic(auto, using(std::proofs::lemmas::List::append_assoc, clp_model::proofs::Trees::size_positive))]
fn arguments(store: &Store, args: &[Term], into: &mut String) -> Result<(), NoMemory>
    requires { AreIn store.now args.now }
    ensures { OnOk result (string_bytes into.new ≡ string_bytes into.old ++ spec.arguments_text (all_texts_at store.now args.now)) }
{
    let Some((first, rest)) = args.split_first() else {
        return Ok(());
    };
    into.push_str("(")?;
    term(store, *first, into)?;
    for arg in rest {
        into.push_str(",")?;
        term(store, *arg, into)?;
    }
    into.push_str(")")?;
    Ok(())
}

/// Appends a head or body atom, which prints no list.
#[tactic(auto, using(crate::proofs::Texts::atom_at_app, crate::proofs::Texts::atom_at_var))]
pub(crate) fn atom(store: &Store, t: Term, into: &mut String) -> Result<(), NoMemory>
    requires { t < length store.now }
    ensures { OnOk result (string_bytes into.new ≡ string_bytes into.old ++ atom_text (atom_at store.now t)) }
{
    match store.look(t) {
        Look::Var(number, _) => print_variable(number as usize, into),
        Look::App(name, args) => applied(store, name, args, into),
    }
}
