//! The rows that a fold has to show, one after another: what the rows of the definition become, from the rows of the
//! clause, and then each row that is dropped, from those that are kept and what the definition's became.

ghost use Rattle.std.specs.Prelude.{◌≡◌, ◌⊎◌, ◌+◌, ◌<◌, ◌≤◌, ◌^◌, ◌++◌, ◌∷◌, ℕ, List, All, Ok, Err, OnOk, IfOk, IfErr, false, length, map};
ghost use Rattle.clp_model.specs.declared.tree.Tree.{Tree};
ghost use Rattle.linear_model.specs.Normal.{normal, is_within};
ghost use Rattle.lin_row.specs.Rows.{IsKept};
ghost use Rattle.clause_model.specs.Variables.{row_variables};
ghost use Rattle.clause_loader.specs.WellFormed.{IsNumber};
ghost use Rattle.clause_store.specs.Stored.{clause_in, IsStored};
ghost use Rattle.fold_model.specs.Positions as parts;
ghost use Rattle.fold_model.specs.Folded.{Question, image_row, definition_questions, questions};
ghost use Rattle.clause_fold.specs.Images.{AreImages, Become, AreNumbers};
ghost use Rattle.map_model.specs.declared.refusal.Refusal.TheVariants.{NoMemory};
ghost use Rattle.map_model.specs.ShowingAll as spec;
ghost use Rattle.row_showing.specs.Several.{shown_from, after_these};

use clause_fold::{chosen_rows, image_numbers, image_row, other_rows};
use clause_store::{Clause, Row};
use farkas_check::Cert;
use lin_row::RowFault;
use map_model::Shows;
use map_state::Refusal;
use row_showing::{check_count, show_at, show_rows};
use sqlite_items::Items;
use std::alloc::Global;
use term_store::{Store, Term};

/// What a row of the definition becomes, in normal form; it has this place among the rows to be shown.
fn image_at(alloc: Global, numbers: &[u32], row: &Row, place: u32) -> Result<Row, Refusal>
    requires { All (IsNumber (length numbers.now)) (row_variables row.now) }
    ensures value { IfOk result (λ r. (s : ℕ → Tree ℕ) → AreNumbers numbers.now s → r ≡ normal (image_row s row.now)) }
    ensures kept { IfOk result IsKept }
    ensures refused { IfErr result (λ e. (e ≡ NoMemory) ⊎ ((e ≡ Refusal.Overflow place) × ((s : ℕ → Tree ℕ) → AreNumbers numbers.now s → is_within (normal (image_row s row.now)) ≡ false))) }
{
    match image_row(alloc, numbers, row) {
        Ok(image) => Ok(image),
        Err(RowFault::Overflow) => Err(Refusal::Overflow(place)),
        Err(RowFault::NoMemory) => Err(Refusal::NoMemory),
    }
}

/// What a row of the definition becomes, of which the certificate by which the rows show it is put last.
fn show_image(
    alloc: Global,
    rows: &[Row],
    numbers: &[u32],
    row: &Row,
    show: &Shows,
    certificates: &mut Items<Cert>,
) -> Result<Row, Refusal>
    requires few { length rows.now ≤ 128 }
    requires before { length certificates.old < 128 }
    requires numbered { All (IsNumber (length numbers.now)) (row_variables row.now) }
    ensures count { OnOk result (length certificates.new ≡ length certificates.old + 1) }
    ensures value { IfOk result (λ r. (s : ℕ → Tree ℕ) → AreNumbers numbers.now s → r ≡ normal (image_row s row.now)) }
    ensures accepted { OnOk result ((s : ℕ → Tree ℕ) → AreNumbers numbers.now s → (qs : List Question) →
        after_these certificates.old (shown_from show.now (length certificates.old) (record { rows = rows.now; target = image_row s row.now } ∷ qs))
        ≡ after_these certificates.new (shown_from show.now (length certificates.old + 1) qs)) }
    ensures refused { IfErr result (λ e. (e ≡ NoMemory) ⊎ ((s : ℕ → Tree ℕ) → AreNumbers numbers.now s → (qs : List Question) →
        after_these certificates.old (shown_from show.now (length certificates.old) (record { rows = rows.now; target = image_row s row.now } ∷ qs)) ≡ Err e)) }
{
    let before = certificates.len() as u32;
    let image = image_at(alloc, numbers, row, before + 1)?;
    let certificate = show_at(alloc, rows, &image, before, show)?;
    certificates.push(certificate)?;
    Ok(image)
}

/// The certificates by which the rows of the clause show what those of the definition become, which are put last.
fn show_images(
    alloc: Global,
    _store: &Store,
    n: &Clause,
    c: &Clause,
    numbers: &[u32],
    show: &Shows,
    remaining: &mut Items<Row>,
) -> Result<Items<Cert>, Refusal>
    requires definition { IsStored _store.now n.now }
    requires clause { IsStored _store.now c.now }
    requires numbers { length numbers.now ≡ length n.now.sorts }
    ensures remaining { OnOk result ((s : ℕ → Tree ℕ) → AreNumbers numbers.now s → remaining.new ≡ remaining.old ++ map (λ r. normal (image_row s r)) n.now.rows) }
    ensures accepted { IfOk result (λ cs. (s : ℕ → Tree ℕ) → AreNumbers numbers.now s → shown_from show.now 0 (definition_questions (clause_in _store.now n.now) (clause_in _store.now c.now) s) ≡ Ok cs) }
    ensures refused { IfErr result (λ e. (e ≡ NoMemory) ⊎ ((s : ℕ → Tree ℕ) → AreNumbers numbers.now s → shown_from show.now 0 (definition_questions (clause_in _store.now n.now) (clause_in _store.now c.now) s) ≡ Err e)) }
{
    let mut certificates = Items::new(alloc);
    for row in n.rows.as_slice() {
        let rows = c.rows.as_slice();
        let image = show_image(alloc, rows, numbers, row, show, &mut certificates)?;
        remaining.push(image)?;
    }
    Ok(certificates)
}

/// The certificates of all rows, of which the dropped ones are given.
fn show_both(
    alloc: Global,
    store: &Store,
    n: &Clause,
    c: &Clause,
    numbers: &[u32],
    keep: &[u32],
    dropped: &[Row],
    show: &Shows,
) -> Result<Items<Cert>, Refusal>
    requires definition { IsStored store.now n.now }
    requires clause { IsStored store.now c.now }
    requires numbers { length numbers.now ≡ length n.now.sorts }
    requires few { length keep.now + length n.now.rows ≤ 128 }
    requires dropped { dropped.now ≡ parts.others keep.now c.now.rows }
    ensures accepted { IfOk result (λ cs. (s : ℕ → Tree ℕ) → AreNumbers numbers.now s → shown_from show.now 0 (questions (clause_in store.now n.now) (clause_in store.now c.now) s keep.now) ≡ Ok cs) }
    ensures refused { IfErr result (λ e. (e ≡ NoMemory) ⊎ ((s : ℕ → Tree ℕ) → AreNumbers numbers.now s → shown_from show.now 0 (questions (clause_in store.now n.now) (clause_in store.now c.now) s keep.now) ≡ Err e)) }
{
    let mut remaining = chosen_rows(alloc, keep, c.rows.as_slice())?;
    let mut certificates = show_images(alloc, store, n, c, numbers, show, &mut remaining)?;
    show_rows(
        alloc,
        remaining.as_slice(),
        dropped,
        show,
        &mut certificates,
    )?;
    Ok(certificates)
}

/// The certificates by which the rows are shown that a fold of the clause `c` by the definition `n` has to show, where
/// the variables of `n` become these images and the rows of `c` at the positions `keep` are kept.
pub(crate) fn show_folded(
    alloc: Global,
    store: &Store,
    n: &Clause,
    c: &Clause,
    scratch: &Store,
    images: &[Term],
    keep: &[u32],
    show: &Shows,
) -> Result<Items<Cert>, Refusal>
    requires definition { IsStored store.now n.now }
    requires clause { IsStored store.now c.now }
    requires images { AreImages scratch.now images.now (length n.now.sorts) c.now.sorts }
    requires few { length keep.now + length n.now.rows ≤ 128 }
    ensures accepted { IfOk result (λ cs. (s : ℕ → Tree ℕ) → Become scratch.now images.now s → spec.certificates (questions (clause_in store.now n.now) (clause_in store.now c.now) s keep.now) show.now ≡ Ok cs) }
    ensures refused { IfErr result (λ e. (e ≡ NoMemory) ⊎ ((s : ℕ → Tree ℕ) → Become scratch.now images.now s → spec.certificates (questions (clause_in store.now n.now) (clause_in store.now c.now) s keep.now) show.now ≡ Err e)) }
{
    let dropped = other_rows(alloc, keep, c.rows.as_slice())?;
    check_count(show, n.rows.len() + dropped.len())?;
    let numbers = image_numbers(alloc, scratch, images)?;
    show_both(
        alloc,
        store,
        n,
        c,
        numbers.as_slice(),
        keep,
        dropped.as_slice(),
        show,
    )
}
