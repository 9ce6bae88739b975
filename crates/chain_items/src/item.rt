ghost use Rattle.std.specs.Prelude.{◌≡◌, ◌&&◌, int_lt, ◌≢◌, ◌<◌, ◌≤◌, ◌∷◌, [], pos, true, false, All, IfOk, IfErr, Err, Option, Some, None, unsigned_abs, length, option_copied};
ghost use Rattle.linear_model.specs.Forms.{IsRising, coefficient};
ghost use Rattle.linear_model.specs.Normal.{is_within, limit, is_always, compares};
ghost use Rattle.linear_model.specs.Elimination.{is_equation};
ghost use Rattle.linear_model.specs.Items as spec;
ghost use Rattle.linear_model.specs.Chain.{multiplier_limit, is_never, first_variable, signed, weights_within};
ghost use Rattle.chain_items.specs.Sparse.{Below, at_most};
ghost use Rattle.chain_items.specs.Items.{row_of, item_of, item_within, IsItem};
ghost use Rattle.chain_items.specs.Keys.{row_hash};
ghost use Rattle.lin_row.specs.Rows.{IsKept};
ghost use Rattle.linear_model.specs.Normal.{normal};
ghost use Rattle.chain_items.specs.declared.item.ItemFault.TheVariants.{Overflow, NoMemory};

use crate::certificate::multipliers;
use crate::combination::{Numbers, combination};
use crate::key::{normal_divisor, row_hash, same_pairs, same_quotient, same_rel};
use crate::reduce::Pairs;
use clp_model::Rel;
use lin_row::Row;
use smallvec::SmallVec;
use std::alloc::{AllocError, Global};
use std::marker::Model;

/// Why a combination was not made.
#[derive(Clone, Copy, Debug, PartialEq, Eq)]
pub enum ItemFault {
    /// A coefficient, the constant or a multiplier would be out of its range.
    Overflow,
    NoMemory,
}

/// A row with the multiplier of each row that the chain began with. Variables rise and no coefficient is 0.
/// Up to four coefficients lie in the item itself, and so do up to four multipliers that are not 0; those that
/// are 0 take no room. The row is not in normal form, since it has to go with its multipliers.
#[derive(Drop)]
pub struct Item {
    rel: Rel,
    pairs: Pairs,
    constant: i64,
    /// How many multipliers there are, also those that are 0.
    count: u32,
    /// The multipliers that are not 0, by rising places.
    weights: Pairs,
    /// What the row is divided by for its normal form.
    divisor: i64,
    /// The hash of the row's normal form.
    hash: u64,
}

impl Model for Item {
    ghost Value = { spec.Item };

    ghost view = { λ i. item_of (row_of i.rel i.pairs.items i.constant) i.count i.weights.items };

    ghost invariant = { λ i. IsItem (row_of i.rel i.pairs.items i.constant) i.count i.weights.items i.divisor i.hash };
}

/// The item of these parts.
fn keep(rel: Rel, pairs: Pairs, constant: i64, count: u32, weights: Pairs) -> Item
    requires rising { IsRising pairs.items }
    requires within { is_within (row_of rel pairs.items constant) ≡ true }
    requires places_rise { IsRising weights.items }
    requires places_below { Below count weights.items }
    requires multipliers_within { at_most multiplier_limit weights.items ≡ true }
    ensures { result ≡ item_of (row_of rel pairs.items constant) count weights.items }
{
    let divisor = normal_divisor(rel, pairs.as_slice(), constant);
    let hash = row_hash(rel, pairs.as_slice(), constant, divisor);
    Item {
        rel,
        pairs,
        constant,
        count,
        weights,
        divisor,
        hash,
    }
}

/// The coefficient of a variable in pairs by rising variables, 0 where it has none.
pub fn coefficient_in(pairs: &[(u32, i64)], variable: u32) -> i64
    requires { IsRising pairs.now }
    ensures { result ≡ coefficient pairs.now variable }
{
    for p in pairs {
        if p.0 == variable {
            return p.1;
        }
        if p.0 > variable {
            return 0;
        }
    }
    0
}

impl Item {
    /// A row with 1 as the multiplier at its own place. Its one error is `NoMemory`.
    pub fn of_row(alloc: Global, row: &Row, place: u32, count: u32) -> Result<Item, ItemFault>
        requires { place < count }
        ensures value { IfOk result (λ i. i ≡ item_of row.now count ((place, pos 1) ∷ [])) }
        ensures kept { IsKept row.now }
        ensures fault { IfErr result (λ e. e ≡ NoMemory) }
    {
        let pairs = SmallVec::from_slice(alloc, row.pairs()).map_err(|_| ItemFault::NoMemory)?;
        let weights = SmallVec::from_slice(alloc, &[(place, 1)]).map_err(|_| ItemFault::NoMemory)?;
        Ok(keep(row.rel(), pairs, row.constant(), count, weights))
    }

    /// a times the first item and b times the second, divided by the joint divisor of coefficients, constant and
    /// multipliers. It is `Overflow` exactly where a number of that is out of its range.
    pub fn combined(
        alloc: Global,
        rel: Rel,
        a: i64,
        first: &Item,
        b: i64,
        second: &Item,
    ) -> Result<Item, ItemFault>
        requires a_small { unsigned_abs a ≤ limit }
        requires b_small { unsigned_abs b ≤ limit }
        requires counts { length first.now.m ≡ length second.now.m }
        ensures value { IfOk result (λ i. i ≡ spec.joined rel a first.now b second.now) }
        ensures within { IfOk result (λ i. item_within i ≡ true) }
        ensures overflow { result ≡ Err Overflow → item_within (spec.joined rel a first.now b second.now) ≡ false }
    {
        let numbers = combination(
            alloc,
            a,
            &Numbers {
                pairs: first.pairs.as_slice(),
                constant: first.constant,
                weights: first.weights.as_slice(),
            },
            b,
            &Numbers {
                pairs: second.pairs.as_slice(),
                constant: second.constant,
                weights: second.weights.as_slice(),
            },
        );
        match numbers {
            Ok(q) => Ok(keep(rel, q.pairs, q.constant, first.count, q.weights)),
            Err(fault) => Err(fault),
        }
    }

    pub fn rel(&self) -> Rel
        ensures { result ≡ self.now.row.rel }
    {
        self.rel
    }

    /// The coefficient of a variable, 0 where it has none.
    pub fn coefficient(&self, variable: u32) -> i64
        ensures value { result ≡ coefficient self.now.row.pairs variable }
        ensures small { unsigned_abs result ≤ limit }
        ensures within { item_within self.now ≡ true }
        ensures rising { IsRising self.now.row.pairs }
    {
        coefficient_in(self.pairs.as_slice(), variable)
    }

    /// The least variable.
    pub fn first_variable(&self) -> Option<u32>
        ensures { result ≡ first_variable self.now.row.pairs }
    {
        match self.pairs.as_slice().first() {
            Some(p) => Some(p.0),
            None => None,
        }
    }

    /// Whether it has no variable and is true.
    pub fn is_always(&self) -> bool
        ensures { result ≡ is_always self.now.row }
    {
        self.pairs.is_empty() && compares(self.rel, self.constant)
    }

    /// Whether it has no variable and is false.
    pub fn is_never(&self) -> bool
        ensures { result ≡ is_never self.now.row }
    {
        self.pairs.is_empty() && !compares(self.rel, self.constant)
    }

    /// The multipliers of a false item: their opposites where it is an equation whose constant is below 0, so that the
    /// sum that they make is above 0.
    pub fn certificate(&self, alloc: Global) -> Result<Vec<i64>, AllocError>
        ensures value { IfOk result (λ v. v.items ≡ signed self.now) }
        ensures within { IfOk result (λ v. weights_within v.items ≡ true) }
    {
        multipliers(
            alloc,
            self.count,
            self.weights.as_slice(),
            is_opposite(self.rel, self.constant),
        )
    }

    /// The hash of the row's normal form.
    pub fn hash(&self) -> u64
        ensures { result ≡ row_hash (normal self.now.row) }
    {
        self.hash
    }

    /// Whether the normal forms of both rows are the same.
    pub fn is_same(&self, other: &Item) -> bool
        ensures { result ≡ spec.same_normal self.now other.now }
    {
        same_rel(self.rel, other.rel)
            && same_pairs(
                self.pairs.as_slice(),
                self.divisor,
                other.pairs.as_slice(),
                other.divisor,
            )
            && same_quotient(self.constant, self.divisor, other.constant, other.divisor)
    }
}

/// Whether the multipliers of a false row with this constant have the opposite sign.
fn is_opposite(rel: Rel, constant: i64) -> bool
    ensures { result ≡ (is_equation rel && int_lt constant (pos 0)) }
{
    match rel {
        Rel::Eq => constant < 0,
        Rel::Le | Rel::Lt => false,
    }
}

/// How a constant compares with 0.
fn compares(rel: Rel, constant: i64) -> bool
    ensures { result ≡ compares rel constant }
{
    match rel {
        Rel::Eq => constant == 0,
        Rel::Le => constant <= 0,
        Rel::Lt => constant < 0,
    }
}
