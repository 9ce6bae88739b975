//! Variables with the terms that take their places.

ghost use Rattle.std.specs.Prelude.{◌≡◌, ◌<◌, ◌++◌, ◌∷◌, [], ℕ, List, length, suc, slice_get, Some, IfSome, IfNone, OnOk, OnErr, nat_eq, vec_len, vec_capacity};
ghost use Rattle.std.specs.HashMap.{get, Updates, IsUnchanged};
ghost use Rattle.clp_model.specs.declared.sort.Sort.TheVariants.{Any, Num};
ghost use Rattle.clp_model.specs.declared.tree.Variable.{Variable};
ghost use Rattle.substitution.specs.Bindings.{variable_of, bound_variables, height_of, HasPlaces};

use clp_model::Sort;
use std::alloc::{AllocError, AllocFailed, Global};
use std::collections::HashMap;
use std::marker::Model;
use term_store::Term;

/// A variable and the term that takes its place.
#[derive(Clone, Copy)]
pub struct Bound {
    pub number: u32,
    pub sort: Sort,
    pub term: Term,
}

/// Bindings in the order in which they were made, which are found by their variables. Where a variable is bound again, the
/// later binding counts.
#[derive(Drop)]
pub struct Bindings {
    list: Vec<Bound>,
    /// The places of the last bindings of Any variables, by number.
    any: HashMap<u32, usize>,
    /// The places of the last bindings of Num variables, by number.
    numbers: HashMap<u32, usize>,
}

impl Model for Bindings {
    ghost use Rattle.std.specs.Prelude.{List, nat_eq};
    ghost use Rattle.std.specs.HashMap.{get};
    ghost use Rattle.substitution.specs.declared.bindings.Bound.{Bound};
    ghost use Rattle.substitution.specs.Bindings.{bound_variables, HasPlaces};

    ghost Value = { List Bound };

    ghost view = { λ b. b.list.items };

    ghost invariant = { λ b. HasPlaces (bound_variables b.list.items) (get nat_eq b.any) (get nat_eq b.numbers) };
}

impl Bindings {
    /// No bindings.
    pub fn new(alloc: Global) -> Bindings
        ensures { result ≡ [] }
    {
        Bindings {
            list: Vec::new(alloc),
            any: HashMap::new(alloc),
            numbers: HashMap::new(alloc),
        }
    }

    /// How many bindings were made.
    pub fn len(&self) -> usize
        ensures { result ≡ length self.now }
    {
        self.list.len()
    }

    /// The binding at a place.
    pub fn at(&self, place: usize) -> Bound
        requires { place < length self.now }
        ensures { slice_get self.now place ≡ Some result }
    {
        self.list[place]
    }

    /// The place of the last binding of a variable.
    #[tactic(auto, using(crate::proofs::Places::place_within))]
    pub fn find(&self, number: u32, sort: Sort) -> Option<usize>
        ensures some { IfSome result (λ place. height_of (bound_variables self.now) (variable_of number sort) ≡ suc place) }
        ensures within { IfSome result (λ place. place < length self.now) }
        ensures none { IfNone result (height_of (bound_variables self.now) (variable_of number sort) ≡ 0) }
    {
        match sort {
            Sort::Any => self.any.get(&number).copied(),
            Sort::Num => self.numbers.get(&number).copied(),
        }
    }

    /// One more binding, the last.
    pub fn push(&mut self, bound: Bound) -> Result<(), AllocError>
        ensures ok { OnOk result (self.new ≡ self.old ++ bound ∷ []) }
        ensures err { OnErr result (self.new ≡ self.old) }
    {
        self.list.reserve(1)?;
        let place = self.list.len();
        note(
            &mut self.any,
            &mut self.numbers,
            bound.number,
            bound.sort,
            place,
        )?;
        put(&mut self.list, bound);
        Ok(())
    }
}

/// Notes the place of the last binding of a variable.
fn note(
    any: &mut HashMap<u32, usize>,
    numbers: &mut HashMap<u32, usize>,
    number: u32,
    sort: Sort,
    place: usize,
) -> Result<(), AllocError>
    ensures ok { OnOk result ((vs : List Variable) → length vs ≡ place → HasPlaces vs (get nat_eq any.old) (get nat_eq numbers.old)
        → HasPlaces (variable_of number sort ∷ vs) (get nat_eq any.new) (get nat_eq numbers.new)) }
    ensures err { OnErr result ((any.new.entries ≡ any.old.entries) × (numbers.new.entries ≡ numbers.old.entries)) }
{
    match sort {
        Sort::Any => any.insert(number, place)?,
        Sort::Num => numbers.insert(number, place)?,
    };
    Ok(())
}

/// Puts a binding last, for which there is room.
fn put(list: &mut Vec<Bound>, bound: Bound)
    requires { vec_len list.old < vec_capacity list.old }
    ensures { list.new.items ≡ list.old.items ++ bound ∷ [] }
{
    list.push(bound).unwrap();
}
