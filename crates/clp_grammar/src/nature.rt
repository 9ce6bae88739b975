/// What an expression is within any number of round brackets: heads, and goals without relation, are atoms.
#[derive(Clone, Copy, Debug, PartialEq, Eq)]
pub enum Nature {
    /// A name with or without arguments.
    Atom,
    /// The name `true` without arguments: no head, and as a goal nothing.
    True,
    /// No atom.
    Other,
}
