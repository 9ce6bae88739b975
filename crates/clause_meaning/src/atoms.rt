//! Heads and goals that are no atoms.

ghost use Rattle.std.specs.Prelude.{◌≡◌};
ghost use Rattle.clp_grammar.specs.Terms as terms;
ghost use Rattle.clp_grammar.specs.Clauses as spec;

use crate::terms::place_of;
use clp_grammar::{Draft, Expression, Goal, Head, Nature};
use clp_model::Name;
use token_model::{Fault, Kind};

/// What a name with these arguments is.
fn name_nature(name: &Name, parts: &[Expression]) -> Nature
    ensures { result ≡ spec.name_nature_of name.now parts.now }
{
    if !parts.is_empty() {
        return Nature::Atom;
    }
    if name.as_str() == "true" {
        Nature::True
    } else {
        Nature::Atom
    }
}

/// What an expression is within any number of round brackets.
#[cycle(nature)]
#[tactic(auto, using(clp_grammar::proofs::Parts::nature_number, clp_grammar::proofs::Parts::nature_variable, clp_grammar::proofs::Parts::nature_node))]
pub(crate) fn nature(e: &Expression) -> Nature
    ensures { result ≡ spec.nature e.now }
{
    match e {
        Expression::Number { .. } => Nature::Other,
        Expression::Variable { .. } => Nature::Other,
        Expression::Node { head, parts, .. } => nature_by(head, parts.as_slice()),
    }
}

#[cycle(nature)]
fn nature_by(head: &Head, parts: &[Expression]) -> Nature
    ensures { result ≡ spec.nature_by head.now parts.now }
{
    match head {
        Head::Application(name) => name_nature(name, parts),
        Head::Brackets => match parts.first() {
            Some(part) => nature(part),
            None => Nature::Other,
        },
        Head::List => Nature::Other,
        Head::OpenList => Nature::Other,
        Head::Plus => Nature::Other,
        Head::Minus => Nature::Other,
        Head::Chain(_) => Nature::Other,
    }
}

/// What is wrong with a head.
fn head_fault(e: &Expression) -> Option<Fault>
    ensures { result ≡ spec.head_fault_by (terms.place_of e.now) (spec.nature e.now) }
{
    let left = place_of(e);
    match nature(e) {
        Nature::Atom => None,
        Nature::True => Some(Fault {
            left,
            kind: Kind::Reserved,
        }),
        Nature::Other => Some(Fault {
            left,
            kind: Kind::NotAnAtom,
        }),
    }
}

/// What is wrong with a goal without relation.
fn call_fault(e: &Expression) -> Option<Fault>
    ensures { result ≡ spec.call_fault_by (terms.place_of e.now) (spec.nature e.now) }
{
    let left = place_of(e);
    match nature(e) {
        Nature::Atom => None,
        Nature::True => None,
        Nature::Other => Some(Fault {
            left,
            kind: Kind::NotAnAtom,
        }),
    }
}

fn goal_fault(goal: &Goal) -> Option<Fault>
    ensures { result ≡ spec.goal_fault goal.now }
{
    match goal {
        Goal::Call(e) => call_fault(e),
        Goal::Comparison(_) => None,
        Goal::Braces(_) => None,
    }
}

fn goals_fault(goals: &[Goal]) -> Option<Fault>
    ensures { result ≡ spec.goals_fault goals.now }
{
    for goal in goals {
        if let Some(fault) = goal_fault(goal) {
            return Some(fault);
        }
    }
    None
}

/// The first head or goal that should be an atom and is none.
#[tactic(auto, unfolding(clp_grammar::specs::Clauses::misplaced))]
pub(crate) fn misplaced(draft: &Draft) -> Option<Fault>
    ensures { result ≡ spec.misplaced draft.now }
{
    match head_fault(&draft.head) {
        Some(fault) => Some(fault),
        None => goals_fault(draft.goals.as_slice()),
    }
}
