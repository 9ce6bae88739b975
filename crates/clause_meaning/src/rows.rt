//! The row of a relation.

ghost use Rattle.std.specs.Prelude.{◌≡◌};
ghost use Rattle.token_model.specs.Parsers.{Gives};
ghost use Rattle.form_model.specs.Forms as form;
ghost use Rattle.clp_model.specs.declared.sort.Rel.{Rel};
ghost use Rattle.clp_grammar.specs.Evaluation as spec;
ghost use Rattle.clause_meaning.specs.Numbers as numbering;
ghost use Rattle.clause_meaning.specs.Computes.{Computes};

use crate::operator::placed;
use crate::values::linear;
use clp_grammar::{Comparison, Relation};
use lin_row::{Rel, Row};
use linear_form::{FormError, LinearForm};
use std::alloc::Global;
use token_model::ReadError;

/// The row that compares the difference of two forms with 0.
pub(crate) fn difference_row(
    alloc: Global,
    rel: Rel,
    f: LinearForm,
    g: LinearForm,
) -> Result<Row, FormError>
    ensures { Computes (spec.with_value (form.difference f g) (form.row_of rel)) result }
{
    f.sub(g)?.into_row(alloc, rel)
}

/// The row of a relation between two forms: the left less the right, or the right less the left.
fn row_by(alloc: Global, relation: Relation, f: LinearForm, g: LinearForm) -> Result<Row, FormError>
    ensures { Computes (spec.row_by relation f g) result }
{
    match relation {
        Relation::Equal => difference_row(alloc, Rel::Eq, f, g),
        Relation::NumberEqual => difference_row(alloc, Rel::Eq, f, g),
        Relation::AtMost => difference_row(alloc, Rel::Le, f, g),
        Relation::Less => difference_row(alloc, Rel::Lt, f, g),
        Relation::AtLeast => difference_row(alloc, Rel::Le, g, f),
        Relation::Greater => difference_row(alloc, Rel::Lt, g, f),
    }
}

/// The row of a relation, where each name of the clause has this variable's number; names count from 1, and one that
/// is past the numbers has 0.
///
/// # Errors
///
/// `Fault` exactly where a side has no form, the left one first, or where the row has a number above the limit, at the
/// place of the relation. `NoMemory` where there was not enough of it.
pub fn row_of(alloc: Global, numbers: &[u32], c: &Comparison) -> Result<Row, ReadError>
    ensures { Gives (spec.row_of (numbering.number_of numbers.now) c.now) result }
{
    let first = linear(alloc, numbers, &c.first)?;
    let second = linear(alloc, numbers, &c.second)?;
    placed(c.left, row_by(alloc, c.relation, first, second))
}
