//! The value of a linear expression.

ghost use Rattle.std.specs.Prelude.{◌≡◌};
ghost use Rattle.token_model.specs.Parsers.{Gives};
ghost use Rattle.form_model.specs.Forms as form;
ghost use Rattle.clp_grammar.specs.Evaluation as spec;
ghost use Rattle.clause_meaning.specs.Numbers as numbering;
ghost use Rattle.clause_meaning.specs.Computes.{Computes};

use crate::operator::{operated, placed};
use clp_grammar::{Expression, Head, Operator};
use linear_form::{FormError, FormFault, LinearForm};
use std::alloc::Global;
use token_model::{Fault, Kind, ReadError};

/// The greatest number that a form may have.
const LIMIT: u64 = 9_223_372_036_854_775_807;

/// The variable's number of the name at this place, 0 where there is none. Places count from 1.
pub(crate) fn number_of(numbers: &[u32], name: u32) -> u32
    ensures { result ≡ numbering.number_of numbers.now name }
{
    let at = (name as usize).saturating_sub(1);
    numbers.get(at).copied().unwrap_or(0)
}

fn whole(alloc: Global, value: u64) -> Result<LinearForm, FormError>
    ensures { Computes (form.if_small_form (form.whole value)) result }
{
    if value <= LIMIT {
        Ok(LinearForm::whole(alloc, value))
    } else {
        Err(FormError::Fault(FormFault::TooLarge))
    }
}

/// No linear expression stands at this place.
fn not_linear(left: usize) -> ReadError
    ensures { result ≡ ReadError.Fault (spec.fault_at left Kind.NotLinear) }
{
    ReadError::Fault(Fault {
        left,
        kind: Kind::NotLinear,
    })
}

/// The form of an expression, where each name of the clause has this variable's number; names count from 1, and one
/// that is past the numbers has 0.
///
/// # Errors
///
/// `Fault` exactly where an operand is none or a computation fails, at its place, the first in the order of evaluation:
/// operands before their operator, left before right. `NoMemory` where there was not enough of it.
#[cycle(linear)]
#[tactic(auto, using(clp_grammar::proofs::Parts::linear_number, clp_grammar::proofs::Parts::linear_variable, clp_grammar::proofs::Parts::linear_node))]
pub fn linear(alloc: Global, numbers: &[u32], e: &Expression) -> Result<LinearForm, ReadError>
    ensures { Gives (spec.linear (numbering.number_of numbers.now) e.now) result }
{
    match e {
        Expression::Number { left, value } => placed(*left, whole(alloc, *value)),
        Expression::Variable { left, number } => {
            placed(
                *left,
                LinearForm::variable(alloc, number_of(numbers, *number)),
            )
        }
        Expression::Node { left, head, parts } => {
            combined(alloc, numbers, *left, head, parts.as_slice())
        }
    }
}

/// The form of an expression with parts.
#[cycle(linear)]
fn combined(
    alloc: Global,
    numbers: &[u32],
    left: usize,
    head: &Head,
    parts: &[Expression],
) -> Result<LinearForm, ReadError>
    ensures { Gives (spec.linear_by (numbering.number_of numbers.now) left head.now parts.now) result }
{
    match head {
        Head::Application(_) => Err(not_linear(left)),
        Head::List => Err(not_linear(left)),
        Head::OpenList => Err(not_linear(left)),
        Head::Brackets => only(alloc, numbers, left, parts),
        Head::Plus => only(alloc, numbers, left, parts),
        Head::Minus => Ok(only(alloc, numbers, left, parts)?.negated()),
        Head::Chain(operators) => chain(alloc, numbers, left, operators.as_slice(), parts),
    }
}

/// The form of the first part.
#[cycle(linear)]
fn only(
    alloc: Global,
    numbers: &[u32],
    left: usize,
    parts: &[Expression],
) -> Result<LinearForm, ReadError>
    ensures { Gives (spec.only_linear_of (numbering.number_of numbers.now) left parts.now) result }
{
    match parts.first() {
        Some(part) => linear(alloc, numbers, part),
        None => Err(not_linear(left)),
    }
}

/// The form of operands with these operators between them.
#[cycle(linear)]
fn chain(
    alloc: Global,
    numbers: &[u32],
    left: usize,
    operators: &[Operator],
    parts: &[Expression],
) -> Result<LinearForm, ReadError>
    ensures { Gives (spec.linear_chain_of (numbering.number_of numbers.now) left operators.now parts.now) result }
{
    let Some((first, rest)) = parts.split_first() else {
        return Err(not_linear(left));
    };
    let mut form = linear(alloc, numbers, first)?;
    for (operator, part) in operators.iter().zip(rest) {
        let operand = linear(alloc, numbers, part)?;
        form = operated(*operator, form, operand)?;
    }
    Ok(form)
}
