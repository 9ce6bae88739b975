//! What stands between expressions: operators and relations.

ghost use Rattle.std.specs.Prelude.{◌≡◌, true, OnSome};
ghost use Rattle.clp_grammar.specs.Expressions as spec;
ghost use Rattle.clp_grammar.specs.Goals as goal;
ghost use Rattle.clp_parser.specs.Readable.{is_whole};

use clp_grammar::{Operation, Relation};
use token_model::Lexeme;

/// The operation between two products that such a token stands for.
pub fn sum_operation(lexeme: Lexeme) -> Option<Operation>
    ensures value { result ≡ spec.sum_operation lexeme }
    ensures whole { OnSome result (is_whole lexeme ≡ true) }
{
    match lexeme {
        Lexeme::Plus => Some(Operation::Add),
        Lexeme::Minus => Some(Operation::Subtract),
        _ => None,
    }
}

/// The operation between two factors.
pub fn product_operation(lexeme: Lexeme) -> Option<Operation>
    ensures value { result ≡ spec.product_operation lexeme }
    ensures whole { OnSome result (is_whole lexeme ≡ true) }
{
    match lexeme {
        Lexeme::Times => Some(Operation::Multiply),
        Lexeme::Over => Some(Operation::Divide),
        _ => None,
    }
}

/// The relation between two expressions.
pub fn relation_of(lexeme: Lexeme) -> Option<Relation>
    ensures value { result ≡ goal.relation_of lexeme }
    ensures whole { OnSome result (is_whole lexeme ≡ true) }
{
    match lexeme {
        Lexeme::Equal => Some(Relation::Equal),
        Lexeme::NumberEqual => Some(Relation::NumberEqual),
        Lexeme::AtMost => Some(Relation::AtMost),
        Lexeme::Less => Some(Relation::Less),
        Lexeme::AtLeast => Some(Relation::AtLeast),
        Lexeme::Greater => Some(Relation::Greater),
        _ => None,
    }
}
