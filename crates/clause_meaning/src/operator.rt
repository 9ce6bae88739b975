//! Operators between forms.

ghost use Rattle.std.specs.Prelude.{◌≡◌, Result};
ghost use Rattle.token_model.specs.Parsers.{Gives};
ghost use Rattle.form_model.specs.declared.fault.FormFault.{FormFault as F};
ghost use Rattle.clp_grammar.specs.Evaluation as spec;
ghost use Rattle.clause_meaning.specs.Computes.{Computes};

use clp_grammar::{Operation, Operator};
use linear_form::{FormError, FormFault, LinearForm};
use token_model::{Fault, Kind, ReadError};

fn kind_of(fault: FormFault) -> Kind
    ensures { result ≡ spec.kind_of fault }
{
    match fault {
        FormFault::NotLinear => Kind::NotLinear,
        FormFault::ZeroDivisor => Kind::ZeroDivisor,
        FormFault::TooLarge => Kind::NumberTooLarge,
    }
}

/// What was computed, or its fault at this place.
pub(crate) fn placed<T>(left: usize, found: Result<T, FormError>) -> Result<T, ReadError>
    ensures { (outcome : Result T F) → Computes outcome found → Gives (spec.placed left outcome) result }
{
    match found {
        Ok(value) => Ok(value),
        Err(FormError::Fault(fault)) => Err(ReadError::Fault(Fault {
            left,
            kind: kind_of(fault),
        })),
        Err(FormError::NoMemory) => Err(ReadError::NoMemory),
    }
}

fn computed(operation: Operation, f: LinearForm, g: LinearForm) -> Result<LinearForm, FormError>
    ensures { Computes (spec.computed operation f g) result }
{
    match operation {
        Operation::Add => f.add(g),
        Operation::Subtract => f.sub(g),
        Operation::Multiply => f.mul(g),
        Operation::Divide => f.div(g),
    }
}

/// The two forms joined by the operator, or the fault at its place.
pub(crate) fn operated(
    operator: Operator,
    f: LinearForm,
    g: LinearForm,
) -> Result<LinearForm, ReadError>
    ensures { Gives (spec.operated operator f g) result }
{
    placed(operator.left, computed(operator.operation, f, g))
}
