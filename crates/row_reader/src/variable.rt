//! Variables that tell their numbers.

ghost use Rattle.std.specs.Prelude.{◌≡◌, ◌≤◌, IfOk};
ghost use Rattle.std.specs.Bool.{OnTrue};
ghost use Rattle.std.specs.List.{list_all};
ghost use Rattle.std.specs.Char.{is_ascii_digit as is_digit};
ghost use Rattle.std.specs.Str.Parse.{AllDigits};
ghost use Rattle.token_model.specs.Numbers.{number_value as value_of_digits};
ghost use Rattle.row_grammar.specs.Row as spec;

use clp_grammar::{Comparison, Expression};
use clp_model::Name;
use std::alloc::{AllocError, Global};
use token_cursor::number_value;
use token_model::{Fault, Kind};

/// The greatest number of a variable.
const MAX_VARIABLE: u64 = 4_294_967_295;

fn are_digits(bytes: &[u8]) -> bool
    ensures value { result ≡ list_all is_digit bytes.now }
    ensures digits { OnTrue result (AllDigits 10 bytes.now) }
{
    for b in bytes {
        if !b.is_ascii_digit() {
            return false;
        }
    }
    true
}

/// Whether digits write a number that a variable may have, without leading zeros.
fn is_positive(digits: &[u8]) -> bool
    ensures value { result ≡ spec.is_positive digits.now }
    ensures digits { OnTrue result (AllDigits 10 digits.now) }
    ensures small { OnTrue result (value_of_digits digits.now ≤ spec.max_variable) }
{
    match digits.first() {
        None => false,
        Some(first) => {
            are_digits(digits) && *first != b'0' && number_value(digits) <= MAX_VARIABLE
        }
    }
}

/// The number of a variable, which stands behind `V`; 0 for every other name.
#[tactic(auto, unfolding(row_grammar::specs::Row::variable_number))]
fn variable_number(name: &[u8]) -> u32
    ensures { result ≡ spec.variable_number name.now }
{
    match name.split_first() {
        Some((b'V', digits)) if is_positive(digits) => number_value(digits) as u32,
        _ => 0,
    }
}

/// The numbers of the variables of names.
pub fn variable_numbers(alloc: Global, names: &[Name]) -> Result<Vec<u32>, AllocError>
    ensures { IfOk result (λ numbers. numbers.items ≡ spec.variable_numbers names.now) }
{
    let mut numbers = Vec::with_capacity(alloc, names.len())?;
    for name in names {
        numbers.push(variable_number(name.as_str().as_bytes()))?;
    }
    Ok(numbers)
}

fn variable_fault(numbers: &[u32], left: usize, name: u32) -> Option<Fault>
    ensures { result ≡ spec.variable_fault numbers.now left name }
{
    let at = (name as usize).saturating_sub(1);
    if numbers.get(at).copied().unwrap_or(0) == 0 {
        Some(Fault {
            left,
            kind: Kind::BadVariable,
        })
    } else {
        None
    }
}

/// The first variable without a number.
#[cycle(variables_fault)]
#[tactic(auto, using(row_grammar::proofs::Parts::variables_fault_number, row_grammar::proofs::Parts::variables_fault_variable, row_grammar::proofs::Parts::variables_fault_node))]
fn variables_fault(numbers: &[u32], e: &Expression) -> Option<Fault>
    ensures { result ≡ spec.variables_fault numbers.now e.now }
{
    match e {
        Expression::Number { .. } => None,
        Expression::Variable { left, number } => variable_fault(numbers, *left, *number),
        Expression::Node { parts, .. } => parts_fault(numbers, parts.as_slice()),
    }
}

#[cycle(variables_fault)]
fn parts_fault(numbers: &[u32], parts: &[Expression]) -> Option<Fault>
    ensures { result ≡ spec.parts_fault_of numbers.now parts.now }
{
    for part in parts {
        let found = variables_fault(numbers, part);
        if found.is_some() {
            return found;
        }
    }
    None
}

/// The first variable without a number in a relation's sides.
#[tactic(auto, unfolding(row_grammar::specs::Row::sides_fault))]
pub fn sides_fault(numbers: &[u32], c: &Comparison) -> Option<Fault>
    ensures { result ≡ spec.sides_fault numbers.now c.now }
{
    variables_fault(numbers, &c.first).or(variables_fault(numbers, &c.second))
}
