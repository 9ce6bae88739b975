//! Clauses as they were parsed.

use crate::expression::Expression;
use sqlite_items::Items;

/// How a relation compares its first side with its second.
#[derive(Clone, Copy, Debug, PartialEq, Eq)]
pub enum Relation {
    /// `=`
    Equal,
    /// `=:=`
    NumberEqual,
    /// `=<`
    AtMost,
    /// `<`
    Less,
    /// `>=`
    AtLeast,
    /// `>`
    Greater,
}

/// A relation between two expressions, and its place.
#[derive(Drop)]
pub struct Comparison {
    pub left: usize,
    pub relation: Relation,
    pub first: Expression,
    pub second: Expression,
}

/// What stands in braces.
#[derive(Drop)]
pub enum Constraint {
    Comparison(Comparison),
    /// `num` of a variable.
    Num(u32),
}

/// A goal of a clause.
#[derive(Drop)]
pub enum Goal {
    Call(Expression),
    Comparison(Comparison),
    Braces(Items<Constraint>),
}

/// A clause whose tokens and grammar are right, and how many variables it names, each `_` counted.
#[derive(Drop)]
pub struct Draft {
    pub head: Expression,
    pub goals: Items<Goal>,
    pub variables: usize,
}
