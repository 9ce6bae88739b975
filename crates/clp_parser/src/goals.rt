//! Relations, what stands in braces, and goals.

ghost use Rattle.std.specs.Prelude.{◌≡◌, true};
ghost use Rattle.token_model.specs.Remaining as token;
ghost use Rattle.token_model.specs.Parsers.{Reads};
ghost use Rattle.token_model.specs.declared.token.Lexeme.TheVariants.{OpenCurly as open_curly};
ghost use Rattle.clp_grammar.specs.Goals as spec;
ghost use Rattle.clp_grammar.specs.Input as input;
ghost use Rattle.clp_parser.specs.Parts.{only_variable as only_variable_of, is_num as is_num_of};
ghost use Rattle.clp_parser.specs.Readable.{is_whole};

use crate::expressions::expression;
use crate::operator::relation_of;
use crate::reader::{MAX_OPEN, Reader};
use clp_grammar::{Comparison, Constraint, Expression, Goal, Head, Relation};
use sqlite_items::Items;
use std::alloc::Global;
use token_model::{Lexeme, ReadError};

/// How many more brackets may be open within braces.
const MAX_INSIDE: usize = MAX_OPEN - 1;

/// This relation, which comes next, and its second side.
#[tactic(auto, unfolding(clp_grammar::specs::Goals::related))]
fn related(
    alloc: Global,
    reader: &mut Reader<'_>,
    more: usize,
    first: Expression,
    relation: Relation,
) -> Result<Comparison, ReadError>
    requires { is_whole (token.lexeme reader.old.remaining) ≡ true }
    ensures { Reads (spec.related more first relation reader.old) result reader.new }
{
    let left = reader.left();
    reader.pass();
    let second = expression(alloc, reader, more)?;
    Ok(Comparison {
        left,
        relation,
        first,
        second,
    })
}

/// Two expressions with a relation between them, where this many more brackets may be open.
///
/// # Errors
///
/// `Fault` exactly where the text has none here, and `NoMemory` where there was not enough of it.
#[tactic(auto, unfolding(clp_grammar::specs::Goals::comparison))]
pub fn comparison(
    alloc: Global,
    reader: &mut Reader<'_>,
    more: usize,
) -> Result<Comparison, ReadError>
    ensures { Reads (spec.comparison more reader.old) result reader.new }
{
    let first = expression(alloc, reader, more)?;
    match relation_of(reader.peek()) {
        Some(relation) => related(alloc, reader, more, first, relation),
        None => Err(ReadError::Fault(reader.refusal(more))),
    }
}

/// The variable, where the only part is one.
fn only_variable(parts: &[Expression]) -> Option<u32>
    ensures { result ≡ only_variable_of parts.now }
{
    match parts {
        [Expression::Variable { number, .. }] => Some(*number),
        _ => None,
    }
}

/// The head is the name `num`.
fn is_num(head: &Head) -> bool
    ensures { result ≡ is_num_of head.now }
{
    match head {
        Head::Application(name) => name.as_str() == "num",
        _ => false,
    }
}

/// The variable, where the expression is just `num` of one.
#[tactic(auto, unfolding(clp_grammar::specs::Goals::num_variable))]
fn num_variable(found: &Expression) -> Option<u32>
    ensures { result ≡ spec.num_variable found.now }
{
    match found {
        Expression::Number { .. } => None,
        Expression::Variable { .. } => None,
        Expression::Node { head, parts, .. } => {
            if is_num(head) {
                only_variable(parts.as_slice())
            } else {
                None
            }
        }
    }
}

/// A relation, or `num` of a variable.
#[tactic(auto, unfolding(clp_grammar::specs::Goals::constrained))]
fn constraint(alloc: Global, reader: &mut Reader<'_>) -> Result<Constraint, ReadError>
    ensures { Reads (spec.constrained reader.old) result reader.new }
{
    let first = expression(alloc, reader, MAX_INSIDE)?;
    if let Some(relation) = relation_of(reader.peek()) {
        let found = related(alloc, reader, MAX_INSIDE, first, relation)?;
        return Ok(Constraint::Comparison(found));
    }
    match num_variable(&first) {
        Some(number) => Ok(Constraint::Num(number)),
        None => Err(ReadError::Fault(reader.refusal(MAX_INSIDE))),
    }
}

#[tactic(auto, unfolding(clp_grammar::specs::Input::separated, clp_grammar::specs::Input::separated_from, clp_grammar::specs::Input::eat))]
fn constraints(alloc: Global, reader: &mut Reader<'_>) -> Result<Items<Constraint>, ReadError>
    ensures { Reads (input.separated spec.constrained reader.old) result reader.new }
{
    let mut found = Items::new(alloc);
    for _turn in 0..reader.left() {
        found.push(constraint(alloc, reader)?)?;
        if !reader.eat(Lexeme::Comma) {
            return Ok(found);
        }
    }
    Err(ReadError::Fault(reader.refusal(MAX_OPEN)))
}

#[tactic(auto, unfolding(clp_grammar::specs::Goals::braces))]
fn braces(alloc: Global, reader: &mut Reader<'_>) -> Result<Items<Constraint>, ReadError>
    requires { token.lexeme reader.old.remaining ≡ open_curly }
    ensures { Reads (spec.braces reader.old) result reader.new }
{
    reader.pass();
    let found = constraints(alloc, reader)?;
    reader.expect(MAX_INSIDE, Lexeme::CloseCurly)?;
    Ok(found)
}

/// A relation, or an expression alone.
#[tactic(auto, unfolding(clp_grammar::specs::Goals::plain_goal))]
fn plain_goal(alloc: Global, reader: &mut Reader<'_>) -> Result<Goal, ReadError>
    ensures { Reads (spec.plain_goal reader.old) result reader.new }
{
    let first = expression(alloc, reader, MAX_OPEN)?;
    match relation_of(reader.peek()) {
        Some(relation) => {
            let found = related(alloc, reader, MAX_OPEN, first, relation)?;
            Ok(Goal::Comparison(found))
        }
        None => Ok(Goal::Call(first)),
    }
}

#[tactic(auto, unfolding(clp_grammar::specs::Goals::one_goal))]
fn goal(alloc: Global, reader: &mut Reader<'_>) -> Result<Goal, ReadError>
    ensures { Reads (spec.one_goal reader.old) result reader.new }
{
    if reader.sees(Lexeme::OpenCurly) {
        let found = braces(alloc, reader)?;
        Ok(Goal::Braces(found))
    } else {
        plain_goal(alloc, reader)
    }
}

/// One goal or more, with commas between.
#[tactic(auto, unfolding(clp_grammar::specs::Input::separated, clp_grammar::specs::Input::separated_from, clp_grammar::specs::Input::eat))]
pub fn goals(alloc: Global, reader: &mut Reader<'_>) -> Result<Items<Goal>, ReadError>
    ensures { Reads (input.separated spec.one_goal reader.old) result reader.new }
{
    let mut found = Items::new(alloc);
    for _turn in 0..reader.left() {
        found.push(goal(alloc, reader)?)?;
        if !reader.eat(Lexeme::Comma) {
            return Ok(found);
        }
    }
    Err(ReadError::Fault(reader.refusal(MAX_OPEN)))
}
