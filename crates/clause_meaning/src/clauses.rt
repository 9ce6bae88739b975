//! Goals, and the clauses that they make with their heads.

ghost use Rattle.token_model.specs.Parsers.{Reads, Gives, value_of};
ghost use Rattle.clp_grammar.specs.Terms as terms;
ghost use Rattle.clp_grammar.specs.Clauses as spec;

use crate::atoms::{misplaced, nature};
use crate::known::Known;
use crate::terms::{compare, term};
use clause_store::SourceClause;
use clp_grammar::{Comparison, Constraint, Draft, Expression, Goal, Nature, Relation};
use std::alloc::Global;
use token_model::ReadError;

/// An atom of the body.
fn atom(alloc: Global, known: &mut Known, e: &Expression) -> Result<(), ReadError>
    ensures { Reads (spec.call_by Nature.Atom e.now known.old) result known.new }
{
    let atom = term(alloc, known, e)?;
    known.push_atom(atom)?;
    Ok(())
}

/// A goal without relation, where `true` stands for nothing.
#[tactic(auto, unfolding(clp_grammar::specs::Clauses::call))]
fn call(alloc: Global, known: &mut Known, e: &Expression) -> Result<(), ReadError>
    ensures { Reads (spec.call e.now known.old) result known.new }
{
    match nature(e) {
        Nature::True => Ok(()),
        Nature::Atom => atom(alloc, known, e),
        Nature::Other => atom(alloc, known, e),
    }
}

/// An equation of terms.
#[tactic(auto, unfolding(clp_grammar::specs::Clauses::equate))]
fn equate(alloc: Global, known: &mut Known, c: &Comparison) -> Result<(), ReadError>
    ensures { Reads (spec.equate c.now known.old) result known.new }
{
    let first = term(alloc, known, &c.first)?;
    let second = term(alloc, known, &c.second)?;
    known.push_equation(first, second)?;
    Ok(())
}

/// A relation outside braces, where `=` is one of terms.
fn relate(alloc: Global, known: &mut Known, c: &Comparison) -> Result<(), ReadError>
    ensures { Reads (spec.relate_by c.now.relation c.now known.old) result known.new }
{
    match c.relation {
        Relation::Equal => equate(alloc, known, c),
        _ => compare(alloc, known, c),
    }
}

fn constrain(alloc: Global, known: &mut Known, constraint: &Constraint) -> Result<(), ReadError>
    ensures { Reads (spec.constrain constraint.now known.old) result known.new }
{
    match constraint {
        Constraint::Comparison(c) => compare(alloc, known, c),
        Constraint::Num(name) => Ok(known.meet_num(*name)?),
    }
}

fn constrain_all(
    alloc: Global,
    known: &mut Known,
    constraints: &[Constraint],
) -> Result<(), ReadError>
    ensures { Reads (spec.constrain_all constraints.now known.old) result known.new }
{
    for constraint in constraints {
        constrain(alloc, known, constraint)?;
    }
    Ok(())
}

fn mean(alloc: Global, known: &mut Known, goal: &Goal) -> Result<(), ReadError>
    ensures { Reads (spec.mean goal.now known.old) result known.new }
{
    match goal {
        Goal::Call(e) => call(alloc, known, e),
        Goal::Comparison(c) => relate(alloc, known, c),
        Goal::Braces(constraints) => constrain_all(alloc, known, constraints.as_slice()),
    }
}

fn mean_all(alloc: Global, known: &mut Known, goals: &[Goal]) -> Result<(), ReadError>
    ensures { Reads (spec.mean_all goals.now known.old) result known.new }
{
    for goal in goals {
        mean(alloc, known, goal)?;
    }
    Ok(())
}

/// The clause, whose head comes first and then its goals.
#[tactic(auto, unfolding(clp_grammar::specs::Clauses::evaluated))]
fn evaluated(alloc: Global, draft: &Draft) -> Result<SourceClause, ReadError>
    ensures { Gives (value_of (spec.evaluated draft.now (terms.nothing draft.now.variables))) result }
{
    let mut known = Known::new(alloc, draft.variables)?;
    let head = term(alloc, &mut known, &draft.head)?;
    mean_all(alloc, &mut known, draft.goals.as_slice())?;
    Ok(known.into_clause(head))
}

/// The source clause of a parsed clause. A relation of linear expressions becomes a row, and a linear expression that
/// stands as a term a new variable with its row; variables are numbered as they are first met. Takes time in the size of
/// the clause, but for what its rows cost.
///
/// # Errors
///
/// `Fault` exactly where the clause stands for none: at the first head or goal that is no atom, and where there is none
/// at the first fault of an expression or a row, in the order of evaluation. `NoMemory` where there was not enough of it,
/// or where the clause has 4,294,967,296 variables or more.
#[tactic(auto, unfolding(clp_grammar::specs::Clauses::meaning))]
pub fn meaning(alloc: Global, draft: &Draft) -> Result<SourceClause, ReadError>
    ensures { Gives (spec.meaning draft.now) result }
{
    match misplaced(draft) {
        Some(fault) => Err(ReadError::Fault(fault)),
        None => evaluated(alloc, draft),
    }
}
