ghost use Rattle.std.specs.Prelude.{◌≡◌, ◌≤◌, Ok, Err, IfOk, nat_eq};
ghost use Rattle.std.specs.List.{IsDistinct};
ghost use Rattle.std.specs.Map.{keys_of};
ghost use Rattle.clp_model.specs.declared.sort.Rel.{Rel};
ghost use Rattle.lin_row.specs.Rows as row;
ghost use Rattle.clp_rationals.specs.Fraction.{IsLowest};
ghost use Rattle.linear_model.specs.Normal.{limit};
ghost use Rattle.form_model.specs.Forms as spec;
ghost use Rattle.form_model.specs.declared.fault.FormFault.{FormFault};
ghost use Rattle.linear_form.specs.Faults.{fault};
ghost use Rattle.linear_form.specs.Kept.{IsKept};

use crate::error::FormError;
use crate::row::{cleared, cleared_terms, den, joint_den, row_of_pairs};
use crate::terms::{Terms, add_all, all_zero, multiply_all, negate_all};
use form_model::FormFault;
use frac128::Frac;
use indexmap::IndexMap;
use lin_row::{Rel, Row};
use std::alloc::Global;
use std::marker::Model;

/// A sum of a constant and of variables times their coefficients, all exact fractions whose parts are at most
/// 9,223,372,036,854,775,807 in magnitude.
#[derive(Drop)]
pub struct LinearForm {
    constant: Frac,
    terms: Terms,
}

impl Model for LinearForm {
    ghost Value = { spec.Form };

    ghost view = { λ f. spec.form f.constant f.terms.entries };

    ghost invariant = { λ f. IsKept (spec.form f.constant f.terms.entries) };
}

impl LinearForm {
    /// A number.
    pub fn whole(alloc: Global, n: u64) -> LinearForm
        requires small { n ≤ limit }
        ensures value { result ≡ spec.whole n }
    {
        LinearForm {
            constant: Frac::natural(n),
            terms: IndexMap::new(alloc),
        }
    }

    /// A variable, once.
    pub fn variable(alloc: Global, v: u32) -> Result<LinearForm, FormError>
        ensures value { IfOk result (λ f. f ≡ spec.variable v) }
        ensures fault { (e : FormFault) → ¬ (result ≡ Err (fault e)) }
    {
        let mut terms = IndexMap::new(alloc);
        terms.insert(v, Frac::natural(1))?;
        Ok(LinearForm {
            constant: Frac::natural(0),
            terms,
        })
    }

    /// Whether no variable counts: there is none, or those that there are cancel.
    pub fn is_constant(&self) -> bool
        ensures value { result ≡ spec.is_constant self.now }
    {
        all_zero(&self.terms)
    }

    /// The opposite form.
    pub fn negated(self) -> LinearForm
        ensures value { result ≡ spec.opposite self }
    {
        let LinearForm {
            constant,
            mut terms,
        } = self;
        negate_all(&mut terms);
        LinearForm {
            constant: constant.negated(),
            terms,
        }
    }

    /// The sum, or TooLarge where a part of it is above the limit.
    pub fn add(self, other: LinearForm) -> Result<LinearForm, FormError>
        ensures value { IfOk result (λ f. Ok f ≡ spec.sum self other) }
        ensures fault { (e : FormFault) → result ≡ Err (fault e) → spec.sum self other ≡ Err e }
    {
        let LinearForm {
            constant,
            mut terms,
        } = self;
        let constant = constant.add(other.constant)?;
        add_all(&mut terms, &other.terms)?;
        Ok(LinearForm { constant, terms })
    }

    /// The difference, or TooLarge where a part of it is above the limit.
    pub fn sub(self, other: LinearForm) -> Result<LinearForm, FormError>
        ensures value { IfOk result (λ f. Ok f ≡ spec.difference self other) }
        ensures fault { (e : FormFault) → result ≡ Err (fault e) → spec.difference self other ≡ Err e }
    {
        self.add(other.negated())
    }

    /// The form with each part multiplied by the factor.
    fn multiplied(self, factor: Frac) -> Result<LinearForm, FormError>
        requires lowest { IsLowest factor }
        ensures value { IfOk result (λ f. Ok f ≡ spec.if_small_form (spec.multiplied factor self)) }
        ensures fault { (e : FormFault) → result ≡ Err (fault e) → spec.if_small_form (spec.multiplied factor self) ≡ Err e }
    {
        let LinearForm {
            constant,
            mut terms,
        } = self;
        let constant = constant.mul(factor)?;
        multiply_all(&mut terms, factor)?;
        Ok(LinearForm { constant, terms })
    }

    /// The product, NotLinear where neither side is constant, or TooLarge where a part of it is above the limit.
    pub fn mul(self, other: LinearForm) -> Result<LinearForm, FormError>
        ensures value { IfOk result (λ f. Ok f ≡ spec.product self other) }
        ensures fault { (e : FormFault) → result ≡ Err (fault e) → spec.product self other ≡ Err e }
    {
        if other.is_constant() {
            return self.multiplied(other.constant);
        }
        if self.is_constant() {
            return other.multiplied(self.constant);
        }
        Err(FormError::Fault(FormFault::NotLinear))
    }

    /// The quotient, NotLinear where the other side isn't constant, ZeroDivisor where it is 0, or TooLarge where a
    /// part of the quotient is above the limit.
    pub fn div(self, other: LinearForm) -> Result<LinearForm, FormError>
        ensures value { IfOk result (λ f. Ok f ≡ spec.quotient self other) }
        ensures fault { (e : FormFault) → result ≡ Err (fault e) → spec.quotient self other ≡ Err e }
    {
        if !other.is_constant() {
            return Err(FormError::Fault(FormFault::NotLinear));
        }
        if other.constant.is_zero() {
            return Err(FormError::Fault(FormFault::ZeroDivisor));
        }
        self.multiplied(other.constant.reciprocal())
    }

    /// The variables and the constant with the numbers that their fractions become over the common denominator.
    fn cleared(&self, alloc: Global) -> Result<(Vec<(u32, i128)>, i128), FormError>
        ensures pairs { IfOk result (λ p. p.0.items ≡ spec.cleared_terms (spec.common_den self.now) self.now.terms) }
        ensures constant { IfOk result (λ p. p.1 ≡ spec.cleared (spec.common_den self.now) self.now.constant) }
        ensures distinct { IsDistinct nat_eq (keys_of self.now.terms) }
        ensures fault { (e : FormFault) (rel : Rel) → result ≡ Err (fault e) → spec.row_of rel self.now ≡ Err e }
    {
        let common = match joint_den(den(self.constant), &self.terms) {
            Some(common) => common,
            None => return Err(FormError::Fault(FormFault::TooLarge)),
        };
        let constant = match cleared(self.constant, common) {
            Some(constant) => constant,
            None => return Err(FormError::Fault(FormFault::TooLarge)),
        };
        let pairs = cleared_terms(alloc, &self.terms, common)?;
        Ok((pairs, constant))
    }

    /// The row that compares the form with 0, in normal form, or TooLarge exactly where a number of the normal form
    /// is above the limit.
    pub fn into_row(self, alloc: Global, rel: Rel) -> Result<Row, FormError>
        ensures value { IfOk result (λ r. Ok r ≡ spec.row_of rel self) }
        ensures kept { IfOk result row.IsKept }
        ensures fault { (e : FormFault) → result ≡ Err (fault e) → spec.row_of rel self ≡ Err e }
    {
        let (pairs, constant) = self.cleared(alloc)?;
        row_of_pairs(alloc, rel, pairs, constant)
    }
}
