//! Forms that are computed from others, and their rows, at the ends of the range too.

use form_model::FormFault;
use lin_row::{Rel, Row};
use linear_form::{FormError, LinearForm};
use std::alloc::Global;

const MAX: i64 = 9_223_372_036_854_775_807;

/// A numerator over a denominator.
type Over = (i64, i64);

/// Variables with their coefficients, in the order in which they are added, and a constant.
type Written = (&'static [(u32, Over)], Over);

/// The coefficients of a row, and its constant.
type Parts = (&'static [(u32, i64)], i64);

#[derive(Clone, Copy)]
enum Operation {
    Add,
    Sub,
    Mul,
    Div,
}

fn whole(alloc: Global, n: i64) -> Result<LinearForm, FormError> {
    let magnitude = n.unsigned_abs();
    if magnitude > MAX as u64 {
        return Err(FormError::Fault(FormFault::TooLarge));
    }
    let form = LinearForm::whole(alloc, magnitude);
    if n < 0 {
        return Ok(form.negated());
    }
    Ok(form)
}

fn number(alloc: Global, over: &Over) -> Result<LinearForm, FormError> {
    whole(alloc, over.0)?.div(whole(alloc, over.1)?)
}

fn form(alloc: Global, written: &Written) -> Result<LinearForm, FormError> {
    let mut sum = number(alloc, &written.1)?;
    for (variable, coefficient) in written.0 {
        let term = LinearForm::variable(alloc, *variable)?.mul(number(alloc, coefficient)?)?;
        sum = sum.add(term)?;
    }
    Ok(sum)
}

fn row(
    alloc: Global,
    left: &Written,
    operation: Operation,
    right: &Written,
    rel: Rel,
) -> Result<Row, FormError> {
    let left = form(alloc, left)?;
    let right = form(alloc, right)?;
    let made = match operation {
        Operation::Add => left.add(right)?,
        Operation::Sub => left.sub(right)?,
        Operation::Mul => left.mul(right)?,
        Operation::Div => left.div(right)?,
    };
    made.into_row(alloc, rel)
}

fn is_as_wanted(made: &Result<Row, FormError>, wanted: &Result<Parts, FormFault>) -> bool {
    match (made, wanted) {
        (Ok(row), Ok(parts)) => row.pairs() == parts.0 && row.constant() == parts.1,
        (Err(FormError::Fault(made)), Err(wanted)) => made == wanted,
        _ => false,
    }
}

static CASES: [(Written, Operation, Written, Rel, Result<Parts, FormFault>); 24] = [
    // sums, and variables that cancel
    (
        (&[(2, (1, 2))], (0, 1)),
        Operation::Add,
        (&[(1, (1, 3))], (1, 6)),
        Rel::Le,
        Ok((&[(1, 2), (2, 3)], 1)),
    ),
    (
        (&[(1, (1, 2))], (0, 1)),
        Operation::Add,
        (&[(1, (1, 2))], (0, 1)),
        Rel::Lt,
        Ok((&[(1, 1)], 0)),
    ),
    (
        (&[(1, (1, 1)), (2, (5, 1))], (3, 1)),
        Operation::Sub,
        (&[(1, (1, 1))], (0, 1)),
        Rel::Le,
        Ok((&[(2, 5)], 3)),
    ),
    (
        (&[(1, (1, 1))], (0, 1)),
        Operation::Sub,
        (&[(1, (1, 1))], (4, 1)),
        Rel::Eq,
        Ok((&[], -1)),
    ),
    (
        (&[(7, (1, 1))], (0, 1)),
        Operation::Sub,
        (&[(3, (1, 1)), (5, (-1, 1))], (0, 1)),
        Rel::Le,
        Ok((&[(3, -1), (5, 1), (7, 1)], 0)),
    ),
    // equations begin with a positive coefficient
    (
        (&[(1, (-2, 1))], (4, 1)),
        Operation::Add,
        (&[], (0, 1)),
        Rel::Eq,
        Ok((&[(1, 1)], -2)),
    ),
    (
        (&[], (-3, 1)),
        Operation::Add,
        (&[], (0, 1)),
        Rel::Eq,
        Ok((&[], -1)),
    ),
    (
        (&[], (1, 2)),
        Operation::Add,
        (&[], (-1, 2)),
        Rel::Eq,
        Ok((&[], 0)),
    ),
    // products
    (
        (&[(1, (1, 2))], (1, 1)),
        Operation::Mul,
        (&[], (-4, 1)),
        Rel::Le,
        Ok((&[(1, -1)], -2)),
    ),
    (
        (&[], (-4, 1)),
        Operation::Mul,
        (&[(1, (1, 2))], (1, 1)),
        Rel::Le,
        Ok((&[(1, -1)], -2)),
    ),
    (
        (&[(1, (1, 1))], (0, 1)),
        Operation::Mul,
        (&[(1, (1, 1))], (0, 1)),
        Rel::Le,
        Err(FormFault::NotLinear),
    ),
    (
        (&[(1, (1, 1))], (0, 1)),
        Operation::Mul,
        (&[(2, (1, 1)), (2, (-1, 1))], (3, 1)),
        Rel::Lt,
        Ok((&[(1, 1)], 0)),
    ),
    (
        (&[(1, (1, 1))], (0, 1)),
        Operation::Mul,
        (&[], (0, 1)),
        Rel::Lt,
        Ok((&[], 0)),
    ),
    // quotients
    (
        (&[(1, (3, 1))], (1, 2)),
        Operation::Div,
        (&[], (-3, 2)),
        Rel::Le,
        Ok((&[(1, -6)], -1)),
    ),
    (
        (&[(1, (1, 1))], (0, 1)),
        Operation::Div,
        (&[(2, (1, 1))], (1, 1)),
        Rel::Le,
        Err(FormFault::NotLinear),
    ),
    (
        (&[(1, (1, 1))], (0, 1)),
        Operation::Div,
        (&[(2, (1, 1)), (2, (-1, 1))], (0, 1)),
        Rel::Le,
        Err(FormFault::ZeroDivisor),
    ),
    (
        (&[], (1, 1)),
        Operation::Div,
        (&[], (0, 1)),
        Rel::Le,
        Err(FormFault::ZeroDivisor),
    ),
    // the ends of the range
    (
        (&[(1, (MAX, 1))], (0, 1)),
        Operation::Add,
        (&[], (1, 1)),
        Rel::Le,
        Ok((&[(1, MAX)], 1)),
    ),
    (
        (&[(1, (MAX, 1))], (0, 1)),
        Operation::Add,
        (&[(1, (1, 1))], (0, 1)),
        Rel::Le,
        Err(FormFault::TooLarge),
    ),
    (
        (&[(1, (1, MAX))], (0, 1)),
        Operation::Mul,
        (&[], (1, 2)),
        Rel::Le,
        Err(FormFault::TooLarge),
    ),
    (
        (&[(1, (1, MAX))], (0, 1)),
        Operation::Add,
        (&[(2, (1, 1))], (0, 1)),
        Rel::Le,
        Ok((&[(1, 1), (2, MAX)], 0)),
    ),
    (
        (&[(1, (1, MAX))], (0, 1)),
        Operation::Add,
        (&[(2, (2, 1))], (0, 1)),
        Rel::Le,
        Err(FormFault::TooLarge),
    ),
    (
        (&[(1, (1, MAX)), (2, (1, MAX - 1))], (0, 1)),
        Operation::Add,
        (&[], (0, 1)),
        Rel::Le,
        Ok((&[(1, MAX - 1), (2, MAX)], 0)),
    ),
    (
        (&[(1, (1, MAX)), (2, (1, MAX - 1))], (0, 1)),
        Operation::Add,
        (&[(3, (1, MAX - 2))], (0, 1)),
        Rel::Le,
        Err(FormFault::TooLarge),
    ),
];

#[test]
fn forms_become_their_rows(rt: HostRuntime) {
    for case in CASES.iter() {
        let made = row(rt.alloc(), &case.0, case.1, &case.2, case.3);
        assert!(rt; is_as_wanted(&made, &case.4));
    }
}
