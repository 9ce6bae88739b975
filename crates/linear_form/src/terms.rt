//! The terms of a form: its variables, in the order in which they were first met, with their coefficients.

ghost use Rattle.std.specs.Prelude.{◌≡◌, ◌<◌, ℕ, List, true, false, Some, nat_eq, length, slice_get, IfErr, OnOk};
ghost use Rattle.indexmap.specs.IndexMap.{get};
ghost use Rattle.clp_rationals.specs.Fraction.{Fraction};
ghost use Rattle.frac_model.specs.Reduced as frac;
ghost use Rattle.frac_model.specs.Results.{is_small, if_small};
ghost use Rattle.frac_model.specs.declared.fault.FracFault.TheVariants as fraction;
ghost use Rattle.form_model.specs.Forms as spec;
ghost use Rattle.form_model.specs.Forms.{are_small, each, with_term, with_terms};
ghost use Rattle.form_model.specs.declared.fault.FormFault.{FormFault};
ghost use Rattle.form_model.specs.declared.fault.FormFault.TheVariants.{TooLarge};
ghost use Rattle.linear_form.specs.Faults.{fault};
ghost use Rattle.linear_form.specs.Terms.{sum_with, is_large};

use crate::error::FormError;
use frac128::{Frac, FracFault};
use indexmap::IndexMap;

/// Coefficients by their variables.
pub(crate) type Terms = IndexMap<u32, Frac>;

/// The term at an index.
pub(crate) fn term_at(terms: &Terms, i: usize) -> (u32, Frac)
    requires within { i < length terms.now.entries }
    ensures value { slice_get terms.now.entries i ≡ Some result }
{
    let (variable, coefficient) = terms.get_index(i).unwrap();
    (*variable, *coefficient)
}

/// The coefficient that the variable has with so much more.
fn sum_at(terms: &Terms, variable: u32, coefficient: Frac) -> Result<Frac, FracFault>
    ensures value { result ≡ if_small (sum_with (get nat_eq terms.now variable) coefficient) }
{
    match terms.get(&variable) {
        Some(present) => present.add(coefficient),
        None => Ok(coefficient),
    }
}

/// Gives the variable so much more.
fn add_term(terms: &mut Terms, variable: u32, coefficient: Frac) -> Result<(), FormError>
    ensures value { OnOk result (terms.new.entries ≡ with_term variable coefficient terms.old.entries) }
    ensures small { OnOk result (are_small terms.old.entries ≡ true → are_small terms.new.entries ≡ true) }
    ensures fault { (f : FormFault) → result ≡ Err (fault f) → (f ≡ TooLarge) × (is_large variable (with_term variable coefficient terms.old.entries) ≡ true) }
{
    let sum = sum_at(terms, variable, coefficient)?;
    terms.insert(variable, sum)?;
    Ok(())
}

/// Adds each of the other terms.
pub(crate) fn add_all(terms: &mut Terms, others: &Terms) -> Result<(), FormError>
    requires small { are_small terms.old.entries ≡ true }
    ensures value { OnOk result (terms.new.entries ≡ with_terms terms.old.entries others.now.entries) }
    ensures small { OnOk result (are_small terms.new.entries ≡ true) }
    ensures fault { (f : FormFault) → result ≡ Err (fault f) → (f ≡ TooLarge) × (are_small (with_terms terms.old.entries others.now.entries) ≡ false) }
{
    for i in 0..others.len() {
        let (variable, coefficient) = term_at(others, i);
        add_term(terms, variable, coefficient)?;
    }
    Ok(())
}

/// Makes each coefficient its opposite.
pub(crate) fn negate_all(terms: &mut Terms)
    ensures value { terms.new.entries ≡ each frac.opposite terms.old.entries }
{
    for i in 0..terms.len() {
        terms[i] = terms[i].negated();
    }
}

/// Multiplies each coefficient by the factor.
pub(crate) fn multiply_all(terms: &mut Terms, factor: Frac) -> Result<(), FracFault>
    ensures value { OnOk result (terms.new.entries ≡ each (λ c. frac.product c factor) terms.old.entries) }
    ensures small { OnOk result (are_small terms.new.entries ≡ true) }
    ensures fault { IfErr result (λ f. (f ≡ fraction.TooLarge) × (are_small (each (λ c. frac.product c factor) terms.old.entries) ≡ false)) }
{
    for i in 0..terms.len() {
        let product = terms[i].mul(factor)?;
        terms[i] = product;
    }
    Ok(())
}

/// Whether no variable counts.
pub(crate) fn all_zero(terms: &Terms) -> bool
    ensures { result ≡ spec.all_zero terms.now.entries }
{
    for i in 0..terms.len() {
        let (_, coefficient) = term_at(terms, i);
        if !coefficient.is_zero() {
            return false;
        }
    }
    true
}
