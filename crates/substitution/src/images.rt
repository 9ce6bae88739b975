//! What the variables of a substitution become.

use crate::bindings::Bindings;

/// How bindings are carried out.
#[derive(Clone, Copy)]
pub(crate) enum Kind {
    /// One after another, the latest first: in the tree of each the bindings before it are carried out.
    InTurn,
    /// All at once.
    AtOnce,
}

/// Bindings and how they are carried out.
#[derive(Drop)]
pub(crate) struct Images {
    pub kind: Kind,
    pub bindings: Bindings,
}
