ghost use Rattle.std.specs.Prelude.{◌≡◌};
ghost use Rattle.linear_form.specs.Faults.{fault, of_fraction, no_memory};

use form_model::FormFault;
use frac128::FracFault;
use std::alloc::{AllocError, AllocFailed};

/// Why there is no form or no row.
#[derive(Clone, Copy, Debug, PartialEq, Eq)]
pub enum FormError {
    /// By the rules of linear expressions.
    Fault(FormFault),
    /// Memory is wanting.
    NoMemory,
}

impl From<FormFault> for FormError {
    ghost from_gives = { λ f e. e ≡ fault f };

    fn from(f: FormFault) -> FormError {
        FormError::Fault(f)
    }
}

impl From<FracFault> for FormError {
    ghost from_gives = { λ f e. e ≡ fault (of_fraction f) };

    fn from(f: FracFault) -> FormError {
        match f {
            FracFault::TooLarge => FormError::Fault(FormFault::TooLarge),
            FracFault::ZeroDivisor => FormError::Fault(FormFault::ZeroDivisor),
        }
    }
}

impl From<AllocError> for FormError {
    ghost from_gives = { λ _ e. e ≡ no_memory };

    fn from(_e: AllocError) -> FormError {
        FormError::NoMemory
    }
}

impl<T: Drop> From<AllocFailed<T>> for FormError {
    ghost from_gives = { λ _ e. e ≡ no_memory };

    fn from(_e: AllocFailed<T>) -> FormError {
        FormError::NoMemory
    }
}
