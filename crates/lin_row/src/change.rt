ghost use Rattle.std.specs.Prelude.{◌≡◌, ◌≢◌, ◌≤◌, All, IfOk, IfErr, IsOk, length, neg_ℤ, unsigned_abs};
ghost use Rattle.clp_model.specs.declared.sort.Rel.TheVariants.{Eq};
ghost use Rattle.linear_model.specs.Normal.{limit};
ghost use Rattle.linear_model.specs.Changes as spec;
ghost use Rattle.linear_model.specs.Changes.{opposite_pairs, flipped, negated};
ghost use Rattle.lin_row.specs.Rows.{row_of, IsKept};
ghost use Rattle.lin_row.specs.declared.row.RowFault.TheVariants.{NoMemory};

use crate::row::{Row, RowFault};
use clp_model::Rel;
use smallvec::SmallVec;
use std::alloc::{AllocError, Global};

/// The opposite of a coefficient.
fn opposite(p: &(u32, i64)) -> (u32, i64)
    requires small { unsigned_abs p.now.1 ≤ limit }
    ensures value { result ≡ (p.now.0, neg_ℤ p.now.1) }
{
    (p.0, -p.1)
}

/// Takes the opposite of each coefficient.
fn take_opposites(pairs: &mut [(u32, i64)])
    requires small { All (λ p. unsigned_abs p.1 ≤ limit) pairs.old }
    ensures value { pairs.new ≡ opposite_pairs pairs.old }
{
    for i in 0..pairs.len() {
        pairs[i] = opposite(&pairs[i]);
    }
}

/// The opposite of a number.
fn opposite_number(number: i64) -> i64
    requires small { unsigned_abs number ≤ limit }
    ensures value { result ≡ neg_ℤ number }
{
    -number
}

impl Row {
    /// The row of the opposite sum under the relation.
    fn turned(self, rel: Rel) -> Row
        requires inequality { rel ≢ Eq }
        ensures value { result ≡ row_of rel (opposite_pairs self.pairs) (neg_ℤ self.constant) }
        ensures kept { IsKept result }
    {
        let Row {
            rel: _,
            mut pairs,
            constant,
        } = self;
        take_opposites(pairs.as_mut_slice());
        Row {
            rel,
            pairs,
            constant: opposite_number(constant),
        }
    }

    /// The negation of an inequality: `-L < 0` for `L =< 0`, and `-L =< 0` for `L < 0`. It takes no memory.
    pub fn negate(self) -> Row
        requires inequality { self.rel ≢ Eq }
        ensures value { result ≡ negated self }
        ensures kept { IsKept result }
    {
        let rel = match self.rel {
            Rel::Eq => Rel::Eq,
            Rel::Le => Rel::Lt,
            Rel::Lt => Rel::Le,
        };
        self.turned(rel)
    }

    /// The opposite sum of an inequality under the same relation: `-L =< 0` for `L =< 0`. It takes no memory.
    pub fn flip(self) -> Row
        requires inequality { self.rel ≢ Eq }
        ensures value { result ≡ flipped self }
        ensures kept { IsKept result }
    {
        let rel = self.rel;
        self.turned(rel)
    }

    /// The row `L =< 0`, which is a half of the equation `L = 0`. Its one error is `NoMemory`.
    pub fn at_most(&self, alloc: Global) -> Result<Row, RowFault>
        ensures value { IfOk result (λ r. r ≡ spec.at_most self.now) }
        ensures kept { IfOk result IsKept }
        ensures fault { IfErr result (λ e. e ≡ NoMemory) }
        ensures short { length self.now.pairs ≤ 4 → IsOk result }
    {
        match SmallVec::from_slice(alloc, self.pairs.as_slice()) {
            Ok(pairs) => Ok(Row {
                rel: Rel::Le,
                pairs,
                constant: self.constant,
            }),
            Err(AllocError) => Err(RowFault::NoMemory),
        }
    }
}
