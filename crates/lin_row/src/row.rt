ghost use Rattle.std.specs.Prelude.{◌≡◌, ◌<◌, ◌≤◌, false, All, IfOk, IfErr, IsOk, Err, length, unsigned_abs};
ghost use Rattle.clp_model.specs.Clauses as spec;
ghost use Rattle.linear_model.specs.Normal.{normal, is_within, limit};
ghost use Rattle.linear_model.specs.Forms.{combination, coefficient};
ghost use Rattle.lin_row.specs.Rows.{row_of, nonzero, VariablesRise, IsKept};
ghost use Rattle.lin_row.specs.declared.row.RowFault.TheVariants.{Overflow, NoMemory};

use crate::combine::product_sum;
use crate::reduce::reduced;
use crate::source::{Given, Sums};
use clp_model::Rel;
use smallvec::SmallVec;
use std::alloc::{AllocError, Global};
use std::marker::Model;

/// How many coefficients of a row lie in the row itself.
pub(crate) const INLINE: usize = 4;

/// A linear row in normal form: a sum of coefficients times variables and of a constant, compared with 0.
/// Variables rise, no coefficient is 0, and all numbers are below 2^63 in magnitude. Up to four coefficients
/// lie in the row itself.
#[derive(Drop)]
pub struct Row {
    pub(crate) rel: Rel,
    pub(crate) pairs: SmallVec<(u32, i64), INLINE>,
    pub(crate) constant: i64,
}

impl Model for Row {
    ghost Value = { spec.Row };

    ghost view = { λ r. row_of r.rel r.pairs.items r.constant };

    ghost invariant = { λ r. IsKept (row_of r.rel r.pairs.items r.constant) };
}

/// Why there is no row: its normal form has a number of 2^63 or more in magnitude, or memory is wanting.
#[derive(Clone, Copy, Debug, PartialEq, Eq)]
pub enum RowFault {
    Overflow,
    NoMemory,
}

impl Row {
    /// The normal form of the row with these coefficients, whose variables rise. Pairs with coefficient 0 are left
    /// out. It is `Overflow` exactly where a number of the normal form is out of range.
    pub fn make(
        alloc: Global,
        rel: Rel,
        pairs: &[(u32, i128)],
        constant: i128,
    ) -> Result<Row, RowFault>
        requires rise { VariablesRise pairs.now }
        ensures value { IfOk result (λ r. r ≡ normal (row_of rel (nonzero pairs.now) constant)) }
        ensures kept { IfOk result IsKept }
        ensures overflow { result ≡ Err Overflow → is_within (normal (row_of rel (nonzero pairs.now) constant)) ≡ false }
        ensures long { result ≡ Err NoMemory → 4 < length (nonzero pairs.now) }
    {
        reduced(alloc, rel, &Given { pairs }, constant)
    }

    /// a times this row and b times the other, under the relation and in normal form. It is `Overflow` exactly where
    /// a number of the normal form is out of range.
    pub fn combine(
        &self,
        alloc: Global,
        rel: Rel,
        a: i64,
        b: i64,
        other: &Row,
    ) -> Result<Row, RowFault>
        requires a_small { unsigned_abs a ≤ limit }
        requires b_small { unsigned_abs b ≤ limit }
        ensures value { IfOk result (λ r. r ≡ normal (combination rel a self.now b other.now)) }
        ensures kept { IfOk result IsKept }
        ensures overflow { result ≡ Err Overflow → is_within (normal (combination rel a self.now b other.now)) ≡ false }
        ensures long { result ≡ Err NoMemory → 4 < length (combination rel a self.now b other.now).pairs }
    {
        let sums = Sums {
            a,
            first: self.pairs.as_slice(),
            b,
            second: other.pairs.as_slice(),
        };
        let constant = product_sum(a, self.constant, b, other.constant);
        reduced(alloc, rel, &sums, constant)
    }

    /// How the sum compares with 0.
    pub fn rel(&self) -> Rel
        ensures value { result ≡ self.now.rel }
        ensures kept { IsKept self.now }
    {
        self.rel
    }

    /// The variables with their coefficients: variables rise, and no coefficient is 0.
    pub fn pairs(&self) -> &[(u32, i64)]
        ensures value { result.now ≡ self.now.pairs }
        ensures kept { IsKept self.now }
        ensures small { All (λ p. unsigned_abs p.1 ≤ limit) self.now.pairs }
    {
        self.pairs.as_slice()
    }

    /// The constant of the sum.
    pub fn constant(&self) -> i64
        ensures value { result ≡ self.now.constant }
        ensures kept { IsKept self.now }
        ensures small { unsigned_abs result ≤ limit }
    {
        self.constant
    }

    /// An equal row. Its one error is `NoMemory`.
    pub fn copy(&self, alloc: Global) -> Result<Row, RowFault>
        ensures value { IfOk result (λ r. r ≡ self.now) }
        ensures kept { IfOk result IsKept }
        ensures fault { IfErr result (λ e. e ≡ NoMemory) }
        ensures short { length self.now.pairs ≤ 4 → IsOk result }
    {
        match SmallVec::from_slice(alloc, self.pairs.as_slice()) {
            Ok(pairs) => Ok(Row {
                rel: self.rel,
                pairs,
                constant: self.constant,
            }),
            Err(AllocError) => Err(RowFault::NoMemory),
        }
    }
}
