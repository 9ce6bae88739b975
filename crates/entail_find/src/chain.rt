ghost use Rattle.std.specs.Prelude.{◌≡◌, ℕ, ◌<◌, Option, Some, None, IfOk, IfErr, IfSome, IfNone, length, get_or};
ghost use Rattle.linear_model.specs.Items.{Item};
ghost use Rattle.linear_model.specs.Chain as spec;
ghost use Rattle.chain_laws.specs.Laws.{HaveMultipliers, RisingItems};
ghost use Rattle.entail_find.specs.Answers.{IsFault, IsFalse};

use crate::fault::FindFault;
use crate::turn::turn;
use chain_items::Item;
use std::alloc::Global;

/// The place of the first false item.
fn false_place(items: &[Item]) -> Option<usize>
    ensures within { IfSome result (λ k. k < length items.now) }
    ensures first { IfSome result (λ k. (d : Item) → spec.first_false items.now ≡ Some (get_or items.now k d)) }
    ensures none { IfNone result (spec.first_false items.now ≡ None) }
{
    for (place, item) in items.iter().enumerate() {
        if item.is_never() {
            return Some(place);
        }
    }
    None
}

fn lesser(a: Option<u32>, b: Option<u32>) -> Option<u32>
    ensures { result ≡ spec.lesser a b }
{
    match (a, b) {
        (None, _) => b,
        (Some(_), None) => a,
        (Some(x), Some(y)) => Some(if y < x { y } else { x }),
    }
}

/// The least variable that occurs.
fn least_variable(items: &[Item]) -> Option<u32>
    ensures { result ≡ spec.least_variable items.now }
{
    let mut least = None;
    for item in items {
        least = lesser(least, item.first_variable());
    }
    least
}

/// Goes by turns, each of which eliminates the least variable, until an item is false or no variable is left, and
/// gives the false item. The variables of the turns rise, so that it ends.
pub fn chain(alloc: Global, items: Vec<Item>) -> Result<Option<Item>, FindFault>
    ghost count: { ℕ }
    requires rising { RisingItems items.items }
    requires counts { HaveMultipliers count items.items }
    ensures value { IfOk result (IsFalse (spec.chain items.items)) }
    ensures fault { IfErr result (IsFault (spec.chain items.items)) }
{
    let mut items = items;
    loop {
        if let Some(place) = false_place(&items) {
            return Ok(Some(items.swap_remove(place)));
        }
        match least_variable(&items) {
            Some(variable) => items = turn(alloc, items, variable)?,
            None => return Ok(None),
        }
    }
}
