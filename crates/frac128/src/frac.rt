ghost use Rattle.std.specs.Prelude.{◌≡◌, ◌<◌, ◌≤◌, pos, neg_ℤ, true, false, unsigned_abs};
ghost use Rattle.clp_rationals.specs.Fraction.{Fraction, IsLowest};
ghost use Rattle.linear_model.specs.Forms.{is_zero};
ghost use Rattle.linear_model.specs.Normal.{limit};
ghost use Rattle.frac_model.specs.Reduced as spec;
ghost use Rattle.frac_model.specs.Results.{is_small, if_small, quotient_or_fault};

use crate::wide::{LIMIT, cross_sum, divided, product};
use frac_model::FracFault;
use lin_row::gcd;
use std::marker::Model;

/// A fraction in lowest terms: its denominator is at least 1, and both parts are at most
/// 9,223,372,036,854,775,807 in magnitude.
#[derive(Clone, Copy)]
pub struct Frac {
    num: i64,
    den: u64,
}

impl Model for Frac {
    ghost Value = { Fraction };

    ghost view = { λ f. spec.fraction f.num f.den };

    ghost inverse = { λ f. record { num = f.num; den = f.den } };

    ghost invariant = { λ f. IsLowest (spec.fraction f.num f.den) × (is_small (spec.fraction f.num f.den) ≡ true) };
}

/// The numerator over the denominator, in lowest terms.
fn reduced(num: i128, den: u128) -> Result<Frac, FracFault>
    requires { 0 < den }
    ensures value { result ≡ if_small (spec.reduced num den) }
{
    let divisor = gcd(num.unsigned_abs(), den);
    let small = den / divisor;
    if small > LIMIT {
        return Err(FracFault::TooLarge);
    }
    match divided(num, divisor) {
        Some(num) => Ok(Frac {
            num,
            den: small as u64,
        }),
        None => Err(FracFault::TooLarge),
    }
}

/// The magnitude with the sign of the number.
fn with_sign_of(number: i64, magnitude: u64) -> i64
    requires small { magnitude ≤ limit }
    ensures { result ≡ (spec.over magnitude number).num }
{
    if number < 0 {
        -(magnitude as i64)
    } else {
        magnitude as i64
    }
}

fn opposite(number: i64) -> i64
    requires small { unsigned_abs number ≤ limit }
    ensures value { result ≡ neg_ℤ number }
    ensures small { unsigned_abs result ≤ limit }
{
    -number
}

impl Frac {
    /// The natural number.
    pub fn natural(n: u64) -> Frac
        requires small { n ≤ limit }
        ensures value { result ≡ spec.fraction (pos n) 1 }
    {
        Frac {
            num: n as i64,
            den: 1,
        }
    }

    /// The whole number, if it is within the limit: all but `i64::MIN` are.
    pub fn whole(n: i64) -> Result<Frac, FracFault>
        ensures value { result ≡ if_small (spec.fraction n 1) }
    {
        if n == i64::MIN {
            return Err(FracFault::TooLarge);
        }
        Ok(Frac { num: n, den: 1 })
    }

    /// The numerator, whose sign is that of the fraction.
    pub fn num(self) -> i64
        ensures value { result ≡ self.num }
        ensures lowest { IsLowest self }
        ensures within { is_small self ≡ true }
    {
        self.num
    }

    /// The denominator, at least 1.
    pub fn den(self) -> i64
        ensures value { result ≡ pos self.den }
        ensures lowest { IsLowest self }
        ensures within { is_small self ≡ true }
    {
        self.den as i64
    }

    /// The sum in lowest terms, or TooLarge where a part of it is above the limit.
    pub fn add(self, other: Frac) -> Result<Frac, FracFault>
        ensures value { result ≡ if_small (spec.sum self other) }
    {
        let num = cross_sum(self.num, other.den, other.num, self.den);
        reduced(num, self.den as u128 * other.den as u128)
    }

    /// The opposite fraction.
    pub fn negated(self) -> Frac
        ensures value { result ≡ spec.opposite self }
    {
        Frac {
            num: opposite(self.num),
            den: self.den,
        }
    }

    /// One over the fraction, which isn't 0.
    pub fn reciprocal(self) -> Frac
        requires nonzero { is_zero self.num ≡ false }
        ensures value { result ≡ spec.reciprocal self }
    {
        Frac {
            num: with_sign_of(self.num, self.den),
            den: self.num.unsigned_abs(),
        }
    }

    /// Whether it is 0.
    pub fn is_zero(self) -> bool
        ensures value { result ≡ is_zero self.num }
    {
        self.num == 0
    }

    /// The product in lowest terms, or TooLarge where a part of it is above the limit.
    pub fn mul(self, other: Frac) -> Result<Frac, FracFault>
        ensures value { result ≡ if_small (spec.product self other) }
    {
        let num = product(self.num, other.num);
        reduced(num, self.den as u128 * other.den as u128)
    }

    /// The difference in lowest terms, or TooLarge where a part of it is above the limit.
    pub fn sub(self, other: Frac) -> Result<Frac, FracFault>
        ensures value { result ≡ if_small (spec.difference self other) }
    {
        let num = cross_sum(self.num, other.den, opposite(other.num), self.den);
        reduced(num, self.den as u128 * other.den as u128)
    }

    /// The quotient in lowest terms, TooLarge where a part of it is above the limit, or ZeroDivisor where the
    /// other fraction is 0.
    pub fn div(self, other: Frac) -> Result<Frac, FracFault>
        ensures value { result ≡ quotient_or_fault self other }
    {
        if other.num == 0 {
            return Err(FracFault::ZeroDivisor);
        }
        let num = product(self.num, with_sign_of(other.num, other.den));
        reduced(num, self.den as u128 * other.num.unsigned_abs() as u128)
    }
}
