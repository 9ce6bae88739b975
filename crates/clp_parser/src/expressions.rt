//! Expressions: sums of products of signed primary expressions.

ghost use Rattle.std.specs.Prelude.{◌≡◌, ◌∷◌, ◌++◌, [], length, true, IfOk};
ghost use Rattle.token_model.specs.Remaining as token;
ghost use Rattle.token_model.specs.Parsers.{Reads};
ghost use Rattle.token_model.specs.declared.token.Lexeme.TheVariants.{OpenRound as open_round, OpenSquare as open_square, Comma as comma, Bar as bar};
ghost use Rattle.clp_grammar.specs.Expressions as spec;
ghost use Rattle.clp_grammar.specs.Input as input;
ghost use Rattle.clp_parser.specs.Levels as level;
ghost use Rattle.clp_parser.specs.Readable.{is_whole};

use crate::operator::{product_operation, sum_operation};
use crate::reader::{MAX_OPEN, Reader};
use clp_grammar::{Expression, Head, Operator};
use sqlite_items::Items;
use std::alloc::{AllocError, Global};
use std::mem;
use token_model::{Kind, Lexeme, ReadError};

/// How many arguments there is room for at first: most applications have no more.
const FEW: usize = 2;

/// Operands with operators between them. One operand stands for itself.
#[tactic(auto, unfolding(clp_grammar::specs::Expressions::chained))]
fn chained(
    left: usize,
    operators: Items<Operator>,
    mut parts: Items<Expression>,
    last: Expression,
) -> Result<Expression, AllocError>
    requires { length operators ≡ length parts }
    ensures { IfOk result (λ e. e ≡ spec.chained left operators (parts ++ last ∷ [])) }
{
    if operators.is_empty() {
        return Ok(last);
    }
    parts.push(last)?;
    Ok(Expression::Node {
        left,
        head: Head::Chain(operators),
        parts,
    })
}

/// An expression, where this many more brackets may be open.
///
/// # Errors
///
/// `Fault` exactly where the text has no expression here, and `NoMemory` where there was not enough of it.
#[cycle(expression)]
#[tactic(auto, unfolding(clp_grammar::specs::Expressions::chain, clp_grammar::specs::Expressions::chain_from))]
pub fn expression(
    alloc: Global,
    reader: &mut Reader<'_>,
    more: usize,
) -> Result<Expression, ReadError>
    ensures { Reads (spec.expression more reader.old) result reader.new }
{
    let left = reader.left();
    let mut operators = Items::new(alloc);
    let mut parts = Items::new(alloc);
    let mut last = product(alloc, reader, more)?;
    for _turn in 0..reader.left() {
        let Some(operation) = sum_operation(reader.peek()) else {
            break;
        };
        let operator = Operator {
            operation,
            left: reader.left(),
        };
        reader.pass();
        operators.push(operator)?;
        let part = product(alloc, reader, more)?;
        parts.push(mem::replace(&mut last, part))?;
    }
    Ok(chained(left, operators, parts, last)?)
}

#[cycle(expression)]
#[tactic(auto, unfolding(clp_grammar::specs::Expressions::chain, clp_grammar::specs::Expressions::chain_from))]
fn product(alloc: Global, reader: &mut Reader<'_>, more: usize) -> Result<Expression, ReadError>
    ensures { Reads (level.product more reader.old) result reader.new }
{
    let left = reader.left();
    let mut operators = Items::new(alloc);
    let mut parts = Items::new(alloc);
    let mut last = signed(alloc, reader, more)?;
    for _turn in 0..reader.left() {
        let Some(operation) = product_operation(reader.peek()) else {
            break;
        };
        let operator = Operator {
            operation,
            left: reader.left(),
        };
        reader.pass();
        operators.push(operator)?;
        let part = signed(alloc, reader, more)?;
        parts.push(mem::replace(&mut last, part))?;
    }
    Ok(chained(left, operators, parts, last)?)
}

#[cycle(expression)]
#[tactic(auto, unfolding(clp_grammar::specs::Expressions::signed))]
fn signed(alloc: Global, reader: &mut Reader<'_>, more: usize) -> Result<Expression, ReadError>
    ensures { Reads (level.signed more reader.old) result reader.new }
{
    match reader.peek() {
        Lexeme::Plus => behind_sign(alloc, reader, more, Head::Plus),
        Lexeme::Minus => behind_sign(alloc, reader, more, Head::Minus),
        _ => primary(alloc, reader, more),
    }
}

#[cycle(expression)]
#[tactic(auto, unfolding(clp_grammar::specs::Expressions::behind_sign))]
fn behind_sign(
    alloc: Global,
    reader: &mut Reader<'_>,
    more: usize,
    sign: Head,
) -> Result<Expression, ReadError>
    requires { is_whole (token.lexeme reader.old.remaining) ≡ true }
    ensures { Reads (level.behind_sign more sign reader.old) result reader.new }
{
    let left = reader.left();
    reader.pass();
    let part = primary(alloc, reader, more)?;
    Ok(node_of_one(alloc, left, sign, part)?)
}

/// A node with one part.
fn node_of_one(
    alloc: Global,
    left: usize,
    head: Head,
    part: Expression,
) -> Result<Expression, AllocError>
    ensures { IfOk result (λ e. e ≡ Expression.Node left head (part ∷ [])) }
{
    let mut parts = Items::from_vec(Vec::with_capacity(alloc, 1)?);
    parts.push(part)?;
    Ok(Expression::Node { left, head, parts })
}

#[cycle(expression)]
#[tactic(auto, unfolding(clp_grammar::specs::Expressions::primary))]
fn primary(alloc: Global, reader: &mut Reader<'_>, more: usize) -> Result<Expression, ReadError>
    ensures { Reads (level.primary more reader.old) result reader.new }
{
    let left = reader.left();
    match reader.peek() {
        Lexeme::Number => {
            let value = reader.number();
            Ok(Expression::Number { left, value })
        }
        Lexeme::Variable => {
            let number = reader.variable(alloc)?;
            Ok(Expression::Variable { left, number })
        }
        Lexeme::Name => application(alloc, reader, more),
        Lexeme::Quoted => application(alloc, reader, more),
        Lexeme::OpenRound => bracketed(alloc, reader, more),
        Lexeme::OpenSquare => list(alloc, reader, more),
        _ => Err(ReadError::Fault(reader.refusal(more))),
    }
}

/// A name with or without arguments.
#[cycle(expression)]
#[tactic(auto, unfolding(clp_grammar::specs::Expressions::application))]
fn application(alloc: Global, reader: &mut Reader<'_>, more: usize) -> Result<Expression, ReadError>
    requires { is_whole (token.lexeme reader.old.remaining) ≡ true }
    ensures { Reads (level.application more (token.lexeme reader.old.remaining) reader.old) result reader.new }
{
    let left = reader.left();
    let name = reader.name(alloc)?;
    let parts = if reader.sees(Lexeme::OpenRound) {
        arguments(alloc, reader, more)?
    } else {
        Items::new(alloc)
    };
    Ok(Expression::Node {
        left,
        head: Head::Application(name),
        parts,
    })
}

#[cycle(expression)]
#[tactic(auto, unfolding(clp_grammar::specs::Expressions::arguments))]
fn arguments(
    alloc: Global,
    reader: &mut Reader<'_>,
    more: usize,
) -> Result<Items<Expression>, ReadError>
    requires { token.lexeme reader.old.remaining ≡ open_round }
    ensures { Reads (spec.arguments more reader.old) result reader.new }
{
    if more == 0 {
        return Err(ReadError::Fault(reader.fail(Kind::TooDeep)));
    }
    reader.pass();
    let found = expressions(alloc, reader, more - 1)?;
    reader.expect(more - 1, Lexeme::CloseRound)?;
    Ok(found)
}

/// One expression or more, with commas between.
#[cycle(expression)]
#[tactic(auto, unfolding(clp_grammar::specs::Input::separated, clp_grammar::specs::Input::separated_from, clp_grammar::specs::Input::eat))]
fn expressions(
    alloc: Global,
    reader: &mut Reader<'_>,
    more: usize,
) -> Result<Items<Expression>, ReadError>
    ensures { Reads (input.separated (spec.expression more) reader.old) result reader.new }
{
    let mut found = Items::from_vec(Vec::with_capacity(alloc, FEW)?);
    for _turn in 0..reader.left() {
        found.push(expression(alloc, reader, more)?)?;
        if !reader.eat(Lexeme::Comma) {
            return Ok(found);
        }
    }
    Err(ReadError::Fault(reader.refusal(MAX_OPEN)))
}

/// An expression in round brackets.
#[cycle(expression)]
#[tactic(auto, unfolding(clp_grammar::specs::Expressions::bracketed))]
fn bracketed(alloc: Global, reader: &mut Reader<'_>, more: usize) -> Result<Expression, ReadError>
    requires { token.lexeme reader.old.remaining ≡ open_round }
    ensures { Reads (spec.bracketed more reader.old) result reader.new }
{
    if more == 0 {
        return Err(ReadError::Fault(reader.fail(Kind::TooDeep)));
    }
    let left = reader.left();
    reader.pass();
    let part = expression(alloc, reader, more - 1)?;
    reader.expect(more - 1, Lexeme::CloseRound)?;
    Ok(node_of_one(alloc, left, Head::Brackets, part)?)
}

#[cycle(expression)]
#[tactic(auto, unfolding(clp_grammar::specs::Expressions::list, clp_grammar::specs::Expressions::list_with))]
fn list(alloc: Global, reader: &mut Reader<'_>, more: usize) -> Result<Expression, ReadError>
    requires { token.lexeme reader.old.remaining ≡ open_square }
    ensures { Reads (spec.list more reader.old) result reader.new }
{
    if more == 0 {
        return Err(ReadError::Fault(reader.fail(Kind::TooDeep)));
    }
    let left = reader.left();
    reader.pass();
    if reader.eat(Lexeme::CloseSquare) {
        Ok(Expression::Node {
            left,
            head: Head::List,
            parts: Items::new(alloc),
        })
    } else {
        elements(alloc, reader, more - 1, left, Items::new(alloc))
    }
}

/// The elements of a list after those that were found, and its end.
#[cycle(expression)]
#[tactic(auto, unfolding(clp_grammar::specs::Expressions::elements_with))]
fn elements(
    alloc: Global,
    reader: &mut Reader<'_>,
    more: usize,
    left: usize,
    mut found: Items<Expression>,
) -> Result<Expression, ReadError>
    ensures { Reads (level.elements more left found reader.old) result reader.new }
{
    found.push(expression(alloc, reader, more)?)?;
    match reader.peek() {
        Lexeme::Comma => after_comma(alloc, reader, more, left, found),
        Lexeme::Bar => after_bar(alloc, reader, more, left, found),
        _ => {
            reader.expect(more, Lexeme::CloseSquare)?;
            Ok(Expression::Node {
                left,
                head: Head::List,
                parts: found,
            })
        }
    }
}

#[cycle(expression)]
#[tactic(auto, unfolding(clp_grammar::specs::Expressions::after_comma))]
fn after_comma(
    alloc: Global,
    reader: &mut Reader<'_>,
    more: usize,
    left: usize,
    found: Items<Expression>,
) -> Result<Expression, ReadError>
    requires { token.lexeme reader.old.remaining ≡ comma }
    ensures { Reads (spec.after_comma more left found reader.old) result reader.new }
{
    if more == 0 {
        return Err(ReadError::Fault(reader.fail(Kind::TooDeep)));
    }
    reader.pass();
    elements(alloc, reader, more - 1, left, found)
}

/// The rest of a list behind a bar.
#[cycle(expression)]
fn after_bar(
    alloc: Global,
    reader: &mut Reader<'_>,
    more: usize,
    left: usize,
    mut found: Items<Expression>,
) -> Result<Expression, ReadError>
    requires { token.lexeme reader.old.remaining ≡ bar }
    ensures { Reads (level.elements_by more left found bar reader.old) result reader.new }
{
    reader.pass();
    let rest = expression(alloc, reader, more)?;
    reader.expect(more, Lexeme::CloseSquare)?;
    found.push(rest)?;
    Ok(Expression::Node {
        left,
        head: Head::OpenList,
        parts: found,
    })
}
