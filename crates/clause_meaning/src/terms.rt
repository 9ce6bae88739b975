//! The terms that expressions stand for.

ghost use Rattle.std.specs.Prelude.{◌≡◌, OnOk};
ghost use Rattle.clp_model.specs.declared.sort.Rel.TheVariants.{Eq as eq};
ghost use Rattle.token_model.specs.Parsers.{Reads, Gives};
ghost use Rattle.form_model.specs.Forms as form;
ghost use Rattle.clp_grammar.specs.Evaluation as evaluation;
ghost use Rattle.clp_grammar.specs.Terms as spec;
ghost use Rattle.clause_meaning.specs.Made as made;
ghost use Rattle.clause_meaning.specs.Numbers as numbering;
ghost use Rattle.clause_meaning.specs.Computes.{Computes};

use crate::known::Known;
use crate::lists::{list_of, open_list};
use crate::operator::placed;
use crate::rows::{difference_row, row_of};
use crate::values::linear;
use clp_grammar::{Comparison, Expression, Head};
use clp_model::{Name, Sort, Tree};
use lin_row::{Rel, Row};
use linear_form::{FormError, LinearForm};
use sqlite_items::Items;
use std::alloc::{AllocError, Global};
use token_model::{Fault, Kind, ReadError};

/// The place of an expression's first byte.
#[tactic(auto, using(clp_grammar::proofs::Parts::place_of_number, clp_grammar::proofs::Parts::place_of_variable, clp_grammar::proofs::Parts::place_of_node))]
pub(crate) fn place_of(e: &Expression) -> usize
    ensures { result ≡ spec.place_of e.now }
{
    match e {
        Expression::Number { left, .. } => *left,
        Expression::Variable { left, .. } => *left,
        Expression::Node { left, .. } => *left,
    }
}

/// The variables of a linear expression are numbers.
#[cycle(meet_all)]
#[tactic(auto, using(clp_grammar::proofs::Parts::met_all_number, clp_grammar::proofs::Parts::met_all_variable, clp_grammar::proofs::Parts::met_all_node))]
fn meet_all(known: &mut Known, e: &Expression) -> Result<(), AllocError>
    ensures { OnOk result (known.new ≡ spec.met_all e.now known.old) }
{
    match e {
        Expression::Number { .. } => Ok(()),
        Expression::Variable { number, .. } => known.meet_num(*number),
        Expression::Node { parts, .. } => meet_each(known, parts.as_slice()),
    }
}

#[cycle(meet_all)]
fn meet_each(known: &mut Known, parts: &[Expression]) -> Result<(), AllocError>
    ensures { OnOk result (known.new ≡ spec.met_each parts.now known.old) }
{
    for part in parts {
        meet_all(known, part)?;
    }
    Ok(())
}

/// The row of a relation between linear expressions.
#[tactic(auto, unfolding(clp_grammar::specs::Terms::compare))]
pub(crate) fn compare(alloc: Global, known: &mut Known, c: &Comparison) -> Result<(), ReadError>
    ensures { Reads (spec.compare c.now known.old) result known.new }
{
    meet_all(known, &c.first)?;
    meet_all(known, &c.second)?;
    let row = row_of(alloc, known.numbers(), c)?;
    known.push_row(row)?;
    Ok(())
}

/// The row by which a variable is the value of a form.
fn value_row(alloc: Global, variable: u32, value: LinearForm) -> Result<Row, FormError>
    ensures { Computes (evaluation.with_value (form.difference (form.variable variable) value) (form.row_of eq)) result }
{
    let first = LinearForm::variable(alloc, variable)?;
    difference_row(alloc, Rel::Eq, first, value)
}

/// The row by which a variable is the value of an expression, from whose first byte on there are this many.
fn expression_row(
    alloc: Global,
    begin: usize,
    variable: u32,
    numbers: &[u32],
    e: &Expression,
) -> Result<Row, ReadError>
    ensures { Gives (spec.value_row begin variable (numbering.number_of numbers.now) e.now) result }
{
    let value = linear(alloc, numbers, e)?;
    placed(begin, value_row(alloc, variable, value))
}

/// A new variable that is the value of a linear expression, from whose first byte on there are this many.
#[tactic(auto, unfolding(clp_grammar::specs::Terms::flattened))]
fn flattened(
    alloc: Global,
    known: &mut Known,
    begin: usize,
    e: &Expression,
) -> Result<Tree, ReadError>
    ensures { Reads (spec.flattened begin e.now known.old) result known.new }
{
    meet_all(known, e)?;
    let variable = known.next()?;
    let row = expression_row(alloc, begin, variable, known.numbers(), e)?;
    known.push_sort(Sort::Num)?;
    known.push_row(row)?;
    Ok(Tree::Var(variable))
}

/// The variable of a name.
#[tactic(auto, unfolding(clp_grammar::specs::Terms::named))]
fn named(known: &mut Known, name: u32) -> Result<Tree, ReadError>
    ensures { Reads (spec.named name known.old) result known.new }
{
    known.meet(name)?;
    Ok(Tree::Var(known.number(name)))
}

/// The term that an expression stands for, from whose first byte on there are this many.
#[cycle(term_from)]
#[tactic(auto, using(clp_grammar::proofs::Parts::term_from_number, clp_grammar::proofs::Parts::term_from_variable, clp_grammar::proofs::Parts::term_from_node))]
fn term_from(
    alloc: Global,
    known: &mut Known,
    begin: usize,
    e: &Expression,
) -> Result<Tree, ReadError>
    ensures { Reads (spec.term_from begin e.now known.old) result known.new }
{
    match e {
        Expression::Number { .. } => flattened(alloc, known, begin, e),
        Expression::Variable { number, .. } => named(known, *number),
        Expression::Node { head, parts, .. } => match head {
            Head::Application(name) => application(alloc, known, name, parts.as_slice()),
            Head::List => list(alloc, known, parts.as_slice()),
            Head::OpenList => list_with_rest(alloc, known, parts.as_slice()),
            Head::Brackets => only(alloc, known, begin, parts.as_slice()),
            Head::Plus => flattened(alloc, known, begin, e),
            Head::Minus => flattened(alloc, known, begin, e),
            Head::Chain(_) => flattened(alloc, known, begin, e),
        },
    }
}

/// A name with these arguments.
#[cycle(term_from)]
fn application(
    alloc: Global,
    known: &mut Known,
    name: &Name,
    parts: &[Expression],
) -> Result<Tree, ReadError>
    ensures { Reads (made.application name.now parts.now known.old) result known.new }
{
    let arguments = terms(alloc, known, parts)?;
    let name = Name::copy_of(alloc, name.as_str())?;
    Ok(Tree::App(name, arguments))
}

#[cycle(term_from)]
fn list(alloc: Global, known: &mut Known, parts: &[Expression]) -> Result<Tree, ReadError>
    ensures { Reads (made.list parts.now known.old) result known.new }
{
    let elements = terms(alloc, known, parts)?;
    Ok(list_of(alloc, elements)?)
}

#[cycle(term_from)]
fn list_with_rest(alloc: Global, known: &mut Known, parts: &[Expression]) -> Result<Tree, ReadError>
    ensures { Reads (made.list_with_rest parts.now known.old) result known.new }
{
    let elements = terms(alloc, known, parts)?;
    Ok(open_list(alloc, elements)?)
}

/// The term of the first part.
#[cycle(term_from)]
fn only(
    alloc: Global,
    known: &mut Known,
    begin: usize,
    parts: &[Expression],
) -> Result<Tree, ReadError>
    ensures { Reads (spec.only_term_of begin parts.now known.old) result known.new }
{
    match parts.first() {
        Some(part) => term_from(alloc, known, begin, part),
        None => Err(ReadError::Fault(Fault {
            left: begin,
            kind: Kind::NotLinear,
        })),
    }
}

/// The terms of expressions.
#[cycle(term_from)]
fn terms(alloc: Global, known: &mut Known, parts: &[Expression]) -> Result<Items<Tree>, ReadError>
    ensures { Reads (spec.terms_of parts.now known.old) result known.new }
{
    let mut found = Items::from_vec(Vec::with_capacity(alloc, parts.len())?);
    for part in parts {
        let begin = place_of(part);
        let term = term_from(alloc, known, begin, part)?;
        found.push(term)?;
    }
    Ok(found)
}

/// The term that an expression stands for.
pub(crate) fn term(alloc: Global, known: &mut Known, e: &Expression) -> Result<Tree, ReadError>
    ensures { Reads (spec.term e.now known.old) result known.new }
{
    let begin = place_of(e);
    term_from(alloc, known, begin, e)
}
