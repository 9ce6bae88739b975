//! The places of a graph's variables.

ghost use Rattle.std.specs.Prelude.{◌≡◌, ◌≢◌, ◌⊎◌, ℕ, Some, OnOk};
ghost use Rattle.clp_model.specs.declared.sort.Sort.{Sort};
ghost use Rattle.unify.specs.Places.{place_of};

use clp_model::Sort;
use indexmap::IndexMap;
use std::alloc::{AllocFailed, Global};

/// The places of variables, by sort and number.
#[derive(Drop)]
pub(crate) struct VariablePlaces {
    any: IndexMap<u32, usize>,
    numbers: IndexMap<u32, usize>,
}

impl VariablePlaces {
    pub(crate) fn new(alloc: Global) -> VariablePlaces
        ensures { (n : ℕ) (s : Sort) → place_of result n s ≡ None }
    {
        VariablePlaces {
            any: IndexMap::new(alloc),
            numbers: IndexMap::new(alloc),
        }
    }

    /// The place of a variable.
    pub(crate) fn find(&self, number: u32, sort: Sort) -> Option<usize>
        ensures { result ≡ place_of self.now number sort }
    {
        match sort {
            Sort::Any => self.any.get(&number).copied(),
            Sort::Num => self.numbers.get(&number).copied(),
        }
    }

    /// Notes the place of a variable.
    pub(crate) fn note(
        &mut self,
        number: u32,
        sort: Sort,
        place: usize,
    ) -> Result<(), AllocFailed<(u32, usize)>>
        ensures noted { OnOk result (place_of self.new number sort ≡ Some place) }
        ensures others { OnOk result ((n : ℕ) (s : Sort) → (n ≢ number) ⊎ (s ≢ sort) → place_of self.new n s ≡ place_of self.old n s) }
    {
        match sort {
            Sort::Any => self.any.insert(number, place)?,
            Sort::Num => self.numbers.insert(number, place)?,
        };
        Ok(())
    }
}
