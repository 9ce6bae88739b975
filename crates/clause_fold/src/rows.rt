//! What the rows of a definition become.

ghost use Rattle.std.specs.Prelude.{◌≡◌, ◌<◌, ℕ, All, Err, false, length, IfOk};
ghost use Rattle.clp_model.specs.declared.tree.Tree.{Tree};
ghost use Rattle.linear_model.specs.Normal.{normal, is_within};
ghost use Rattle.lin_row.specs.Rows.{IsKept};
ghost use Rattle.lin_row.specs.declared.row.RowFault.TheVariants.{Overflow};
ghost use Rattle.clause_model.specs.Variables.{row_variables};
ghost use Rattle.term_store.specs.Trees.{AreIn};
ghost use Rattle.clause_loader.specs.WellFormed.{IsNumber};
ghost use Rattle.fold_model.specs.Folded.{image_row};
ghost use Rattle.clause_fold.specs.Images.{Become, AreNumbers};

use crate::definitions::number_in;
use clause_store::Row;
use lin_row::RowFault;
use sqlite_items::Items;
use std::alloc::Global;
use term_store::{NoMemory, Store, Term};

/// The numbers of the variables that the images are, and 0 for one that is none, in order; they serve for all rows.
pub fn image_numbers(
    alloc: Global,
    scratch: &Store,
    images: &[Term],
) -> Result<Items<u32>, NoMemory>
    requires { AreIn scratch.now images.now }
    ensures count { IfOk result (λ numbers. length numbers ≡ length images.now) }
    ensures are { IfOk result (λ numbers. (s : ℕ → Tree ℕ) → Become scratch.now images.now s → AreNumbers numbers s) }
{
    let mut numbers = Items::new(alloc);
    for term in images {
        numbers.push(number_in(scratch, *term))?;
    }
    Ok(numbers)
}

/// What a row of a definition becomes, in normal form, by the numbers of the images of the definition's variables.
///
/// # Errors
///
/// `Overflow` exactly where a number of it is 2^63 or more in magnitude.
pub fn image_row(alloc: Global, numbers: &[u32], row: &Row) -> Result<Row, RowFault>
    requires { All (IsNumber (length numbers.now)) (row_variables row.now) }
    ensures value { IfOk result (λ r. (s : ℕ → Tree ℕ) → AreNumbers numbers.now s → r ≡ normal (image_row s row.now)) }
    ensures kept { IfOk result IsKept }
    ensures overflow { result ≡ Err Overflow → (s : ℕ → Tree ℕ) → AreNumbers numbers.now s → is_within (normal (image_row s row.now)) ≡ false }
{
    row.rename(alloc, numbers)
}
