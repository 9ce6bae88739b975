ghost use Rattle.std.specs.Prelude.{◌≡◌, ℕ, ◌<◌, ◌/◌, ◌^◌, [], IfOk, OnOk, ◌++◌, ◌∷◌, length, get_or, vec_len};
ghost use Rattle.std.specs.List.{list_any};
ghost use Rattle.linear_model.specs.Items.{same_normal};
ghost use Rattle.entail_find.specs.Kept as spec;

use chain_items::Item;
use std::alloc::{AllocError, Global};
use std::marker::Model;

/// The most items that a turn may leave.
pub const MOST: usize = 1024;

/// How many lists the table has.
const LISTS: usize = 1024;

/// The bits of a hash that don't choose a list.
const REST: u32 = 54;

/// The items that a turn keeps, without true constants and repeats, until there are more than `MOST`. A repeat is
/// found by its hash: `heads` has for each list of the table one more than the last place of an item in it, and
/// `next` for each place one more than the place before it in its list; 0 ends a list.
#[derive(Drop)]
pub struct Kept {
    items: Vec<Item>,
    heads: Vec<u16>,
    next: Vec<u16>,
}

impl Model for Kept {
    ghost use Rattle.std.specs.Prelude.{List};
    ghost use Rattle.linear_model.specs.Items.{Item};

    ghost Value = { List Item };

    ghost use Rattle.entail_find.specs.Kept.{IsTable, buckets};

    ghost view = { λ k. k.items.items };

    ghost invariant = { λ k. IsTable (buckets k.items.items) k.heads.items k.next.items };
}

/// As many zeros.
fn zeros(alloc: Global, count: usize) -> Result<Vec<u16>, AllocError>
    ensures len { IfOk result (λ v. length v.items ≡ count) }
    ensures zero { IfOk result (λ v. (k : ℕ) → get_or v.items k 0 ≡ 0) }
{
    let mut all = Vec::new(alloc);
    all.resize(count, 0)?;
    Ok(all)
}

/// The list of the table in which an item is found.
fn bucket(item: &Item) -> usize
    ensures value { result ≡ spec.bucket item.now }
    ensures small { result < 1024 }
{
    (item.hash() >> REST) as usize
}

impl Kept {
    pub fn new(alloc: Global) -> Result<Kept, AllocError>
        ensures { IfOk result (λ k. k ≡ []) }
    {
        let heads = zeros(alloc, LISTS)?;
        let next = zeros(alloc, MOST + 1)?;
        Ok(Kept {
            items: Vec::new(alloc),
            heads,
            next,
        })
    }

    /// Whether an item with the same normal form is there.
    fn has_same(&self, item: &Item) -> bool
        ensures { result ≡ list_any (λ y. same_normal y item.now) self.now }
    {
        let mut end = self.heads[bucket(item)] as usize;
        while end > 0 {
            let place = end - 1;
            if self.items[place].is_same(item) {
                return true;
            }
            end = self.next[place] as usize;
        }
        false
    }

    /// Puts an item last that is no repeat.
    fn put(&mut self, item: Item) -> Result<(), AllocError>
        requires { length self.old < 1025 }
        ensures { OnOk result (self.new ≡ self.old ++ item ∷ []) }
    {
        let list = bucket(&item);
        let place = self.items.len();
        self.items.push(item)?;
        self.next[place] = self.heads[list];
        self.heads[list] = place as u16 + 1;
        Ok(())
    }

    /// Puts an item last, unless it is a true constant or a repeat, or there are more than `MOST` already.
    pub fn add(&mut self, item: Item) -> Result<(), AllocError>
        ensures { OnOk result (self.new ≡ spec.with_item self.old item) }
    {
        if self.items.len() > MOST || item.is_always() || self.has_same(&item) {
            return Ok(());
        }
        self.put(item)
    }

    /// The items in order.
    pub fn into_items(self) -> Vec<Item>
        ensures { result.items ≡ self }
    {
        self.items
    }
}
