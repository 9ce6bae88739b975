ghost use Rattle.std.specs.Prelude.{◌≡◌, ℕ, ◌<◌, ◌&&◌, ◌++◌, ◌∷◌, [], IfErr, true, false, length, All, Option, Some, None, IfOk, IfSome, IfNone, OnOk, Err, get_or, nat_le, pos, int_lt, not};
ghost use Rattle.std.specs.List.{remove};
ghost use Rattle.linear_model.specs.Forms.{coefficient};
ghost use Rattle.linear_model.specs.Elimination as elimination;
ghost use Rattle.linear_model.specs.Items.{Item, item_row, joined, turn, kept};
ghost use Rattle.linear_model.specs.Chain.{all_within};
ghost use Rattle.chain_items.specs.Items.{item_within};
ghost use Rattle.chain_laws.specs.Laws.{HaveMultipliers};
ghost use Rattle.entail_find.specs.Kept.{Adds};
ghost use Rattle.entail_find.specs.Turning as spec;
ghost use Rattle.entail_find.specs.Answers.{TurnFault};
ghost use Rattle.chain_items.specs.declared.item.ItemFault.TheVariants.{Overflow};
ghost use Rattle.entail_find.specs.declared.fault.FindFault.TheVariants as faults;

use crate::fault::FindFault;
use crate::kept::{Kept, MOST};
use chain_items::{Item, ItemFault, Rel};
use std::alloc::Global;

/// Adds an item that came.
fn keep(into: &mut Kept, item: Item) -> Result<(), ItemFault>
    requires { item_within item ≡ true }
    ensures value { OnOk result (Adds into.old (item ∷ []) into.new) }
    ensures fault { ¬ (result ≡ Err Overflow) }
{
    into.add(item).map_err(|_| ItemFault::NoMemory)
}

/// Adds what becomes of an item by an equation that has the variable.
fn substitute(
    alloc: Global,
    into: &mut Kept,
    variable: u32,
    equation: &Item,
    item: Item,
) -> Result<(), ItemFault>
    requires has { elimination.has variable equation.now.row ≡ true }
    requires counts { length item.m ≡ length equation.now.m }
    ensures value { OnOk result (Adds into.old (elimination.substituted item_row joined variable equation.now item ∷ []) into.new) }
    ensures overflow { result ≡ Err Overflow → item_within (elimination.substituted item_row joined variable equation.now item) ≡ false }
{
    if item.coefficient(variable) == 0 {
        return keep(into, item);
    }
    let made = item.substituted(alloc, variable, equation)?;
    keep(into, made)
}

/// Adds what becomes of each item by an equation that has the variable.
fn substitute_each(
    alloc: Global,
    into: &mut Kept,
    variable: u32,
    equation: &Item,
    items: Vec<Item>,
) -> Result<(), ItemFault>
    ghost count: { ℕ }
    requires has { elimination.has variable equation.now.row ≡ true }
    requires equation_count { length equation.now.m ≡ count }
    requires counts { HaveMultipliers count items.items }
    ensures value { OnOk result (Adds into.old (spec.by_equation variable equation.now items.items) into.new) }
    ensures overflow { result ≡ Err Overflow → all_within (spec.by_equation variable equation.now items.items) ≡ false }
{
    let mut rest = items.into_iter();
    while let Some(item) = rest.next() {
        substitute(alloc, into, variable, equation, item)?;
    }
    Ok(())
}

/// The items that have a variable, lower and upper bounds of it apart.
#[derive(Drop)]
struct Bounds {
    lowers: Vec<Item>,
    uppers: Vec<Item>,
}

/// Adds an item that doesn't have the variable, and puts a bound of it with the others of its kind.
fn sort(into: &mut Kept, bounds: &mut Bounds, variable: u32, item: Item) -> Result<(), ItemFault>
    ensures value { OnOk result (Adds into.old (spec.others_of variable (item ∷ [])) into.new) }
    ensures lowers { OnOk result (bounds.new.lowers.items ≡ bounds.old.lowers.items ++ spec.lowers_of variable (item ∷ [])) }
    ensures uppers { OnOk result (bounds.new.uppers.items ≡ bounds.old.uppers.items ++ spec.uppers_of variable (item ∷ [])) }
    ensures fault { ¬ (result ≡ Err Overflow) }
{
    let coefficient = item.coefficient(variable);
    if coefficient == 0 {
        return keep(into, item);
    }
    if coefficient < 0 {
        bounds.lowers.push(item).map_err(|_| ItemFault::NoMemory)
    } else {
        bounds.uppers.push(item).map_err(|_| ItemFault::NoMemory)
    }
}

/// Adds the items that don't have the variable, and gives its bounds.
fn sort_each(
    alloc: Global,
    into: &mut Kept,
    variable: u32,
    items: Vec<Item>,
) -> Result<Bounds, ItemFault>
    ensures value { OnOk result (Adds into.old (spec.others_of variable items.items) into.new) }
    ensures lowers { IfOk result (λ b. b.lowers.items ≡ spec.lowers_of variable items.items) }
    ensures uppers { IfOk result (λ b. b.uppers.items ≡ spec.uppers_of variable items.items) }
    ensures fault { ¬ (result ≡ Err Overflow) }
{
    let mut bounds = Bounds {
        lowers: Vec::new(alloc),
        uppers: Vec::new(alloc),
    };
    let mut rest = items.into_iter();
    while let Some(item) = rest.next() {
        sort(into, &mut bounds, variable, item)?;
    }
    Ok(bounds)
}

/// Adds what a lower and an upper bound make.
fn pair(
    alloc: Global,
    into: &mut Kept,
    variable: u32,
    lower: &Item,
    upper: &Item,
) -> Result<(), ItemFault>
    requires lower_has { elimination.has variable lower.now.row ≡ true }
    requires upper_has { elimination.has variable upper.now.row ≡ true }
    requires counts { length lower.now.m ≡ length upper.now.m }
    ensures value { OnOk result (Adds into.old (elimination.bounded item_row joined variable lower.now upper.now ∷ []) into.new) }
    ensures overflow { result ≡ Err Overflow → item_within (elimination.bounded item_row joined variable lower.now upper.now) ≡ false }
{
    let made = lower.bounded(alloc, variable, upper)?;
    keep(into, made)
}

/// Adds what a lower bound makes with each upper bound.
fn pair_with_each(
    alloc: Global,
    into: &mut Kept,
    variable: u32,
    lower: &Item,
    uppers: &[Item],
) -> Result<(), ItemFault>
    ghost count: { ℕ }
    requires lower_has { elimination.has variable lower.now.row ≡ true }
    requires uppers_have { All (λ u. elimination.has variable u.row ≡ true) uppers.now }
    requires lower_count { length lower.now.m ≡ count }
    requires counts { HaveMultipliers count uppers.now }
    ensures value { OnOk result (Adds into.old (spec.with_each variable lower.now uppers.now) into.new) }
    ensures overflow { result ≡ Err Overflow → all_within (spec.with_each variable lower.now uppers.now) ≡ false }
{
    for upper in uppers {
        pair(alloc, into, variable, lower, upper)?;
    }
    Ok(())
}

/// Adds what each lower bound makes with each upper bound.
fn pair_each(
    alloc: Global,
    into: &mut Kept,
    variable: u32,
    lowers: &[Item],
    uppers: &[Item],
) -> Result<(), ItemFault>
    ghost count: { ℕ }
    requires lowers_have { All (λ l. elimination.has variable l.row ≡ true) lowers.now }
    requires uppers_have { All (λ u. elimination.has variable u.row ≡ true) uppers.now }
    requires lower_counts { HaveMultipliers count lowers.now }
    requires counts { HaveMultipliers count uppers.now }
    ensures value { OnOk result (Adds into.old (spec.by_bounds variable lowers.now uppers.now) into.new) }
    ensures overflow { result ≡ Err Overflow → all_within (spec.by_bounds variable lowers.now uppers.now) ≡ false }
{
    for lower in lowers {
        pair_with_each(alloc, into, variable, lower, uppers)?;
    }
    Ok(())
}

/// Whether it is an equation that has the variable.
fn is_equation_of(item: &Item, variable: u32) -> bool
    ensures { result ≡ (elimination.is_equation item.now.row.rel && elimination.has variable item.now.row) }
{
    match item.rel() {
        Rel::Eq => item.coefficient(variable) != 0,
        Rel::Le | Rel::Lt => false,
    }
}

/// The place of the first equation that has the variable.
fn equation_place(items: &[Item], variable: u32) -> Option<usize>
    ensures within { IfSome result (λ k. k < length items.now) }
    ensures first { IfSome result (λ k. (d : Item) → elimination.first_equation item_row variable items.now ≡ Some (get_or items.now k d, remove items.now k)) }
    ensures has { IfSome result (λ k. (d : Item) → elimination.has variable (get_or items.now k d).row ≡ true) }
    ensures none { IfNone result (elimination.first_equation item_row variable items.now ≡ None) }
{
    for (place, item) in items.iter().enumerate() {
        if is_equation_of(item, variable) {
            return Some(place);
        }
    }
    None
}

/// Adds all items of the turn in order. It is `Overflow` exactly where one is out of its ranges.
fn make_items(
    alloc: Global,
    into: &mut Kept,
    variable: u32,
    items: Vec<Item>,
) -> Result<(), ItemFault>
    ghost count: { ℕ }
    requires { HaveMultipliers count items.items }
    ensures value { OnOk result (Adds into.old (turn variable items.items) into.new) }
    ensures overflow { result ≡ Err Overflow → all_within (turn variable items.items) ≡ false }
{
    match equation_place(&items, variable) {
        Some(place) => {
            let mut items = items;
            let equation = items.remove(place);
            substitute_each(alloc, into, variable, &equation, items)
        }
        None => {
            let bounds = sort_each(alloc, into, variable, items)?;
            pair_each(alloc, into, variable, &bounds.lowers, &bounds.uppers)
        }
    }
}

/// The items after the elimination of a variable, without true constants and repeats. It is `Overflow` exactly where
/// an item of the turn is out of its ranges, also one that is then dropped, and `TooLong` exactly where none is and
/// more than 1,024 are left.
pub fn turn(alloc: Global, items: Vec<Item>, variable: u32) -> Result<Vec<Item>, FindFault>
    ghost count: { ℕ }
    requires { HaveMultipliers count items.items }
    ensures value { IfOk result (λ left. (left.items ≡ kept (turn variable items.items)) × (all_within (turn variable items.items) ≡ true) × (nat_le (length (kept (turn variable items.items))) 1024 ≡ true)) }
    ensures fault { IfErr result (λ e. TurnFault (turn variable items.items) e) }
{
    let mut into = Kept::new(alloc)?;
    make_items(alloc, &mut into, variable, items)?;
    let left = into.into_items();
    if left.len() > MOST {
        return Err(FindFault::TooLong);
    }
    Ok(left)
}
