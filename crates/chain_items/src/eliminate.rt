ghost use Rattle.std.specs.Prelude.{◌≡◌, ◌≢◌, ◌≤◌, ◌≤ℤ◌, pos, true, false, Err, IfOk, unsigned_abs, length};
ghost use Rattle.linear_model.specs.Normal.{limit};
ghost use Rattle.linear_model.specs.Items.{item_row, joined};
ghost use Rattle.linear_model.specs.Elimination as spec;
ghost use Rattle.chain_items.specs.Items.{item_within};
ghost use Rattle.chain_items.specs.declared.item.ItemFault.TheVariants.{Overflow};

use crate::item::{Item, ItemFault};
use crate::key::gcd;
use clp_model::Rel;
use std::alloc::Global;

/// The least positive factors that make a and b equal in magnitude.
fn factors(a: i64, b: i64) -> (i64, i64)
    requires a_not_zero { a ≢ pos 0 }
    requires b_not_zero { b ≢ pos 0 }
    requires a_small { unsigned_abs a ≤ limit }
    requires b_small { unsigned_abs b ≤ limit }
    ensures first { result.0 ≡ pos (spec.factors a b).0 }
    ensures second { result.1 ≡ pos (spec.factors a b).1 }
    ensures first_small { unsigned_abs result.0 ≤ limit }
    ensures second_small { unsigned_abs result.1 ≤ limit }
{
    let a = a.unsigned_abs();
    let b = b.unsigned_abs();
    let divisor = gcd(a, b);
    ((b / divisor) as i64, (a / divisor) as i64)
}

/// The opposite of n where a and b have one sign, else n.
fn opposed(a: i64, b: i64, n: i64) -> i64
    requires not_negative { pos 0 ≤ℤ n }
    ensures value { result ≡ spec.opposed a b (unsigned_abs n) }
    ensures same_size { unsigned_abs result ≡ unsigned_abs n }
{
    if (a < 0) == (b < 0) { -n } else { n }
}

/// The stricter of the relations of a lower and an upper bound.
fn stricter(a: Rel, b: Rel) -> Rel
    ensures { result ≡ spec.stricter a b }
{
    match (a, b) {
        (Rel::Lt, _) | (_, Rel::Lt) => Rel::Lt,
        (Rel::Eq, Rel::Eq) => Rel::Eq,
        _ => Rel::Le,
    }
}

impl Item {
    /// This item without a variable that it has, by an equation that has it. It is `Overflow` exactly where a number
    /// of that is out of its range.
    pub fn substituted(
        &self,
        alloc: Global,
        variable: u32,
        equation: &Item,
    ) -> Result<Item, ItemFault>
        requires equation_has { spec.has variable equation.now.row ≡ true }
        requires has { spec.has variable self.now.row ≡ true }
        requires counts { length self.now.m ≡ length equation.now.m }
        ensures value { IfOk result (λ i. i ≡ spec.substituted item_row joined variable equation.now self.now) }
        ensures within { IfOk result (λ i. item_within i ≡ true) }
        ensures overflow { result ≡ Err Overflow → item_within (spec.substituted item_row joined variable equation.now self.now) ≡ false }
    {
        let e = equation.coefficient(variable);
        let r = self.coefficient(variable);
        let (own, other) = factors(e, r);
        Item::combined(alloc, self.rel(), other, self, opposed(e, r, own), equation)
    }

    /// This lower bound of a variable together with an upper bound of it. It is `Overflow` exactly where a number of
    /// that is out of its range.
    pub fn bounded(&self, alloc: Global, variable: u32, upper: &Item) -> Result<Item, ItemFault>
        requires upper_has { spec.has variable upper.now.row ≡ true }
        requires has { spec.has variable self.now.row ≡ true }
        requires counts { length self.now.m ≡ length upper.now.m }
        ensures value { IfOk result (λ i. i ≡ spec.bounded item_row joined variable self.now upper.now) }
        ensures within { IfOk result (λ i. item_within i ≡ true) }
        ensures overflow { result ≡ Err Overflow → item_within (spec.bounded item_row joined variable self.now upper.now) ≡ false }
    {
        let (own, other) = factors(self.coefficient(variable), upper.coefficient(variable));
        Item::combined(
            alloc,
            stricter(self.rel(), upper.rel()),
            own,
            self,
            other,
            upper,
        )
    }
}
