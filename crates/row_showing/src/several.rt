ghost use Rattle.std.specs.Prelude.{◌≡◌, ◌⊎◌, ◌<◌, ◌≤◌, ◌+◌, ◌^◌, Ok, Err, OnOk, IfOk, IfErr, All, List, length};
ghost use Rattle.lin_row.specs.Rows.{IsKept};
ghost use Rattle.fold_model.specs.Folded.{Question};
ghost use Rattle.map_model.specs.declared.refusal.Refusal.TheVariants.{NoMemory};
ghost use Rattle.map_model.specs.Showing.{shown_by};
ghost use Rattle.map_model.specs.ShowingAll.{certificates};
ghost use Rattle.row_showing.specs.Several.{shown_from, after_these, asked};
ghost use Rattle.row_showing.specs.Several as spec;

use crate::showing::show_row;
use farkas_check::{Cert, CheckFault};
use lin_row::Row;
use map_model::{Refusal, Shown, Shows};
use sqlite_items::Items;
use std::alloc::Global;

/// Whether there is a way for each of so many rows that are to be shown, one after another; this comes before any of
/// them is shown.
///
/// # Errors
///
/// `BadMultipliers(0, Count)` where ways are given, and not one for each row.
pub fn check_count(show: &Shows, count: usize) -> Result<(), Refusal>
    ensures counted { OnOk result ((qs : List Question) → length qs ≡ count → certificates qs show.now ≡ shown_from show.now 0 qs) }
    ensures refused { IfErr result (λ e. (qs : List Question) → length qs ≡ count → certificates qs show.now ≡ Err e) }
{
    match show {
        Shows::Find => Ok(()),
        Shows::Each(ways) => {
            if ways.len() == count {
                Ok(())
            } else {
                Err(Refusal::BadMultipliers(0, CheckFault::Count))
            }
        }
    }
}

/// The way of the row that has so many before it; the last argument where none is given.
fn way_at<'a>(show: &'a Shows, before: u32, find: &'a Shown) -> &'a Shown
    requires { find.now ≡ Shown.Find }
    ensures { result.now ≡ spec.way_at show.now before }
{
    match show {
        Shows::Find => find,
        Shows::Each(ways) => match ways.get(before as usize) {
            Some(way) => way,
            None => find,
        },
    }
}

/// A certificate by which at most 128 rows show the target, which has so many rows before it among those to be shown; it
/// is shown in the way that is given for its place, and by the finder where none is given.
///
/// # Errors
///
/// Those of `show_row` at the target's place.
pub fn show_at(
    alloc: Global,
    rows: &[Row],
    target: &Row,
    before: u32,
    show: &Shows,
) -> Result<Cert, Refusal>
    requires few { length rows.now ≤ 128 }
    requires place { before + 1 < 2 ^ 32 }
    ensures accepted { IfOk result (λ c. shown_by (before + 1) rows.now target.now (spec.way_at show.now before) ≡ Ok c) }
    ensures refused { IfErr result (λ e. (e ≡ Refusal.NoMemory) ⊎ (shown_by (before + 1) rows.now target.now (spec.way_at show.now before) ≡ Err e)) }
{
    let find = Shown::Find;
    let way = way_at(show, before, &find);
    show_row(alloc, rows, target, before + 1, way)
}

/// Puts last the certificates by which at most 128 rows show each of the targets, which come next among the rows to be
/// shown: those before them have the certificates that there are.
///
/// # Errors
///
/// Those of `show_row` for the first target that is not shown, at its place.
pub fn show_rows(
    alloc: Global,
    rows: &[Row],
    targets: &[Row],
    show: &Shows,
    certificates: &mut Items<Cert>,
) -> Result<(), Refusal>
    requires few { length rows.now ≤ 128 }
    requires kept { All IsKept targets.now }
    requires few_targets { length targets.now ≤ 128 }
    requires few_certificates { length certificates.old ≤ 128 }
    ensures accepted { OnOk result (after_these certificates.old (shown_from show.now (length certificates.old) (asked rows.now targets.now)) ≡ Ok certificates.new) }
    ensures refused { IfErr result (λ e. (e ≡ Refusal.NoMemory) ⊎ (after_these certificates.old (shown_from show.now (length certificates.old) (asked rows.now targets.now)) ≡ Err e)) }
{
    for target in targets {
        let certificate = show_at(alloc, rows, target, certificates.len() as u32, show)?;
        certificates.push(certificate)?;
    }
    Ok(())
}
