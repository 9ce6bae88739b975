use clp_model::Sort;
use std::marker::Model;

/// A term of a store, by its place there. The default is the first place, in any store.
#[derive(Clone, Copy, Debug, Default, PartialEq, Eq, Hash)]
pub struct Term {
    pub(crate) place: usize,
}

impl Model for Term {
    ghost use Rattle.std.specs.Prelude.{ℕ};

    ghost Value = { ℕ };

    ghost view = { λ t. t.place };

    ghost inverse = { λ n. record { place = n } };
}

/// What a term is: a variable with its number and sort, or a name applied to terms of the same store.
#[derive(Clone, Copy)]
pub enum Look<'a> {
    Var(u32, Sort),
    App(&'a str, &'a [Term]),
}
