ghost use Rattle.std.specs.Prelude.{◌≡◌, ◌+◌, ◌≤◌, ◌<◌, ◌^◌, ◌++◌, ◌∷◌, [], pos, length, IfOk, OnOk, IfErr};
ghost use Rattle.linear_model.specs.Forms.{IsRising};
ghost use Rattle.chain_items.specs.Items.{item_of};
ghost use Rattle.chain_laws.specs.Laws.{RisingRows};
ghost use Rattle.entail_find.specs.Beginning.{numbered};
ghost use Rattle.chain_items.specs.declared.item.ItemFault.TheVariants.{NoMemory};

use chain_items::{Item, ItemFault};
use lin_row::Row;
use std::alloc::Global;

/// Puts a row last, with 1 as the multiplier at its own place.
pub fn push_row(
    alloc: Global,
    items: &mut Vec<Item>,
    row: &Row,
    place: u32,
    count: u32,
) -> Result<(), ItemFault>
    requires { place < count }
    ensures value { OnOk result (items.new.items ≡ items.old.items ++ item_of row.now count ((place, pos 1) ∷ []) ∷ []) }
    ensures rising { IsRising row.now.pairs }
    ensures fault { IfErr result (λ e. e ≡ NoMemory) }
{
    let item = Item::of_row(alloc, row, place, count)?;
    items.push(item).map_err(|_| ItemFault::NoMemory)
}

/// The items of rows, whose own multipliers stand from a place on.
pub fn begin(alloc: Global, rows: &[Row], place: u32, count: u32) -> Result<Vec<Item>, ItemFault>
    requires room { place + length rows.now ≤ count }
    ensures value { IfOk result (λ v. v.items ≡ numbered place count rows.now) }
    ensures rising { OnOk result (RisingRows rows.now) }
    ensures fault { IfErr result (λ e. e ≡ NoMemory) }
{
    let mut items = Vec::new(alloc);
    for (i, row) in rows.iter().enumerate() {
        push_row(alloc, &mut items, row, place + i as u32, count)?;
    }
    Ok(items)
}
