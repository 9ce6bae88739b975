//! Prints rows.

ghost use Rattle.std.specs.Prelude.{◌≡◌, ◌<◌, ◌≤◌, ◌++◌, OnOk, OnErr, string_bytes, codes, unsigned_abs};
ghost use Rattle.std.specs.Int.{is_negative};
ghost use Rattle.print_model.specs.Terms.{variable_text};
ghost use Rattle.print_model.specs.Rows as spec;

use clp_model::Rel;
use itoa::Buffer;
use lin_row::Row;
use term_store::NoMemory;

/// Appends `V` and the number. After an error the `V` may be there alone.
pub fn print_variable(number: usize, into: &mut String) -> Result<(), NoMemory>
    ensures { OnOk result (string_bytes into.new ≡ string_bytes into.old ++ variable_text number) }
{
    into.push_str("V")?;
    into.push_str(Buffer::new().format(number))?;
    Ok(())
}

/// Appends a variable after the magnitude of its coefficient.
fn product(magnitude: u64, number: u32, into: &mut String) -> Result<(), NoMemory>
    ensures { OnOk result (string_bytes into.new ≡ string_bytes into.old ++ spec.product_text magnitude number) }
{
    if magnitude != 1 {
        into.push_str(Buffer::new().format(magnitude))?;
        into.push_str("*")?;
    }
    print_variable(number as usize, into)
}

/// How what is added to a sum is joined to it.
fn joint(added: i64) -> &'static str
    ensures { result.now ≡ spec.joint added }
{
    if added.is_negative() { " - " } else { " + " }
}

fn first_term(number: u32, coefficient: i64, into: &mut String) -> Result<(), NoMemory>
    ensures { OnOk result (string_bytes into.new ≡ string_bytes into.old ++ spec.first_term (number, coefficient)) }
{
    if coefficient.is_negative() {
        into.push_str("-")?;
    }
    product(coefficient.unsigned_abs(), number, into)
}

fn later_term(number: u32, coefficient: i64, into: &mut String) -> Result<(), NoMemory>
    ensures { OnOk result (string_bytes into.new ≡ string_bytes into.old ++ spec.later_term (number, coefficient)) }
{
    into.push_str(joint(coefficient))?;
    product(coefficient.unsigned_abs(), number, into)
}

#[tactic(auto, using(std::proofs::lemmas::List::append_assoc))]
fn later_terms(pairs: &[(u32, i64)], into: &mut String) -> Result<(), NoMemory>
    ensures { OnOk result (string_bytes into.new ≡ string_bytes into.old ++ spec.later_terms pairs.now) }
{
    for pair in pairs {
        later_term(pair.0, pair.1, into)?;
    }
    Ok(())
}

fn later_constant(constant: i64, into: &mut String) -> Result<(), NoMemory>
    ensures { OnOk result (string_bytes into.new ≡ string_bytes into.old ++ spec.later_constant constant) }
{
    let magnitude = constant.unsigned_abs();
    if magnitude != 0 {
        into.push_str(joint(constant))?;
        into.push_str(Buffer::new().format(magnitude))?;
    }
    Ok(())
}

#[tactic(auto, using(std::proofs::lemmas::List::append_assoc))]
fn sum(pairs: &[(u32, i64)], constant: i64, into: &mut String) -> Result<(), NoMemory>
    ensures { OnOk result (string_bytes into.new ≡ string_bytes into.old ++ spec.sum_text pairs.now constant) }
{
    let Some((first, rest)) = pairs.split_first() else {
        into.push_str(Buffer::new().format(constant))?;
        return Ok(());
    };
    first_term(first.0, first.1, into)?;
    later_terms(rest, into)?;
    later_constant(constant, into)
}

fn relation_text(rel: Rel) -> &'static str
    ensures { result.now ≡ spec.relation_text rel }
{
    match rel {
        Rel::Eq => " = 0",
        Rel::Le => " =< 0",
        Rel::Lt => " < 0",
    }
}

/// Appends a row; after an error more may stand there than before.
#[tactic(auto, using(std::proofs::lemmas::List::append_assoc), unfolding(print_model::specs::Rows::row_text))]
pub(crate) fn row(row: &Row, into: &mut String) -> Result<(), NoMemory>
    ensures { OnOk result (string_bytes into.new ≡ string_bytes into.old ++ spec.row_text row.now) }
{
    sum(row.pairs(), row.constant(), into)?;
    into.push_str(relation_text(row.rel()))?;
    Ok(())
}

/// Appends the text of a row: its terms by rising variable, its constant, and how it compares with 0, as in
/// `2*V1 - V2 + 3 =< 0`. After an error `into` is as before.
pub fn print_row(row: &Row, into: &mut String) -> Result<(), NoMemory>
    ensures ok { OnOk result (string_bytes into.new ≡ string_bytes into.old ++ spec.row_text row.now) }
    ensures err { OnErr result (string_bytes into.new ≡ string_bytes into.old) }
{
    let mut text = String::new(*into.allocator());
    crate::row::row(row, &mut text)?;
    into.push_str(text.as_str())?;
    Ok(())
}
