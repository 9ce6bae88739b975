ghost use Rattle.std.specs.Prelude.{◌≡◌, true, false, IfOk, IfErr, unsigned_abs, nat_le};
ghost use Rattle.linear_model.specs.Certificates as spec;
ghost use Rattle.linear_model.specs.Chain.{multiplier_limit, weights_within};
ghost use Rattle.farkas_check.specs.Parts.{part, part_within};
ghost use Rattle.lin_row.specs.declared.row.RowFault.TheVariants.{NoMemory};

use lin_row::RowFault;
use std::alloc::{AllocError, Global};
use std::marker::Model;

/// The greatest magnitude of a multiplier.
const LIMIT: u64 = 72_057_594_037_927_935;

/// Farkas multipliers: one for the target, and one for each row, none above 72,057,594,037,927,935 in magnitude.
#[derive(Drop)]
pub struct Part {
    k: i64,
    m: Vec<i64>,
}

impl Model for Part {
    ghost Value = { spec.Part };

    ghost view = { λ p. part p.k p.m.items };

    ghost invariant = { λ p. part_within (part p.k p.m.items) ≡ true };
}

/// Whether the number is within the limit.
fn fits(number: i64) -> bool
    ensures { result ≡ nat_le (unsigned_abs number) multiplier_limit }
{
    number.unsigned_abs() <= LIMIT
}

/// Whether all numbers are within the limit.
fn all_fit(numbers: &[i64]) -> bool
    ensures { result ≡ weights_within numbers.now }
{
    for number in numbers {
        if !fits(*number) {
            return false;
        }
    }
    true
}

impl Part {
    /// The part with these multipliers; they are handed back exactly where one, or k, is above the limit.
    pub fn make(k: i64, m: Vec<i64>) -> Result<Part, Vec<i64>>
        ensures value { IfOk result (λ p. (p ≡ part k m.items) × (part_within p ≡ true)) }
        ensures past { IfErr result (λ v. (v ≡ m) × (part_within (part k m.items) ≡ false)) }
    {
        if fits(k) && all_fit(&m) {
            Ok(Part { k, m })
        } else {
            Err(m)
        }
    }

    /// The multiplier of the target.
    pub fn k(&self) -> i64
        ensures value { result ≡ self.now.k }
        ensures within { part_within self.now ≡ true }
    {
        self.k
    }

    /// The multipliers of the rows, in their order.
    pub fn multipliers(&self) -> &[i64]
        ensures value { result.now ≡ self.now.m }
        ensures within { part_within self.now ≡ true }
    {
        self.m.as_slice()
    }

    /// An equal part. Its one error is `NoMemory`.
    pub fn copy(&self, alloc: Global) -> Result<Part, RowFault>
        ensures value { IfOk result (λ p. p ≡ self.now) }
        ensures fault { IfErr result (λ e. e ≡ NoMemory) }
    {
        match Vec::from_slice(alloc, self.m.as_slice()) {
            Ok(m) => Ok(Part { k: self.k, m }),
            Err(AllocError) => Err(RowFault::NoMemory),
        }
    }
}
