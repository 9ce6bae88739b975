//! Expressions as they stand in a text. A place is told by how many bytes there are from it to the end of the text.

use clp_model::Name;
use sqlite_items::Items;

/// How two operands are joined.
#[derive(Clone, Copy, Debug, PartialEq, Eq)]
pub enum Operation {
    Add,
    Subtract,
    Multiply,
    Divide,
}

/// An operator between two operands, and its place.
#[derive(Clone, Copy, Debug, PartialEq, Eq)]
pub struct Operator {
    pub operation: Operation,
    pub left: usize,
}

/// What the parts of an expression make.
#[derive(Debug, Drop)]
pub enum Head {
    /// A name with its arguments, or without any.
    Application(Name),
    /// A list of its parts, `[]` where there are none.
    List,
    /// A list whose last part stands behind a bar: the list goes on with it.
    OpenList,
    /// Its one part in round brackets.
    Brackets,
    /// Its one part behind a `+`.
    Plus,
    /// Its one part behind a `-`.
    Minus,
    /// Two operands or more with operators between them, from left to right: a sum of products, or a product.
    Chain(Items<Operator>),
}

/// An expression, and the place of its first byte.
#[derive(Drop)]
pub enum Expression {
    Number {
        left: usize,
        value: u64,
    },
    /// Variables are numbered from 1 as their names are first met in the clause; each `_` has a number of its own.
    Variable {
        left: usize,
        number: u32,
    },
    Node {
        left: usize,
        head: Head,
        parts: Items<Expression>,
    },
}
