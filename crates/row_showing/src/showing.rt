ghost use Rattle.std.specs.Prelude.{◌≡◌, ◌⊎◌, ◌≤◌, Ok, Err, OnOk, IfOk, IfErr, All, length};
ghost use Rattle.clp_model.specs.Values.{Valuation};
ghost use Rattle.clp_model.specs.Clauses.{RowHolds};
ghost use Rattle.linear_model.specs.Certificates.{Entails, Unsatisfiable};
ghost use Rattle.farkas_check.specs.Right.{IsRight};
ghost use Rattle.map_model.specs.declared.refusal.Refusal.TheVariants.{NoMemory};
ghost use Rattle.map_model.specs.Showing.{shown_by, shown_false_by};

use crate::faults::{copied, refusal_of};
use entail_find::{Found, find, find_false};
use farkas_check::{Cert, CheckFault, shown, shown_false};
use lin_row::Row;
use map_model::{Refusal, Shown};
use std::alloc::Global;

/// A certificate by which at most 128 rows show the target, which stands at this place among the rows to be shown: the
/// given one, or the finder's.
///
/// # Errors
///
/// - `BadMultipliers` with the place and the first fault of a given certificate that is wrong;
/// - where the finder is asked: `Overflow` with the place or `TooLarge(Chain)` where its chain of eliminations leaves its
///   range, and else `Unentailed` exactly where the rows do not entail the target;
/// - `NoMemory`, at any time.
pub fn show_row(
    alloc: Global,
    rows: &[Row],
    target: &Row,
    place: u32,
    show: &Shown,
) -> Result<Cert, Refusal>
    requires few { length rows.now ≤ 128 }
    ensures accepted { IfOk result (λ c. shown_by place rows.now target.now show.now ≡ Ok c) }
    ensures refused { IfErr result (λ e. (e ≡ Refusal.NoMemory) ⊎ (shown_by place rows.now target.now show.now ≡ Err e)) }
    ensures right { IfOk result (λ c. IsRight rows.now target.now c) }
    ensures entailed { OnOk result (Entails rows.now target.now) }
    ensures unentailed { result ≡ Err (Refusal.Unentailed place) → ¬ (Entails rows.now target.now) }
{
    match show {
        Shown::Given(certificate) => checked(alloc, rows, target, place, certificate),
        Shown::Find => found(alloc, rows, target, place),
    }
}

/// The given certificate, if it is right.
fn checked(
    alloc: Global,
    rows: &[Row],
    target: &Row,
    place: u32,
    certificate: &Cert,
) -> Result<Cert, Refusal>
    requires few { length rows.now ≤ 128 }
    ensures accepted { IfOk result (λ c. shown_by place rows.now target.now (Shown.Given certificate.now) ≡ Ok c) }
    ensures refused { IfErr result (λ e. (e ≡ Refusal.NoMemory) ⊎ (shown_by place rows.now target.now (Shown.Given certificate.now) ≡ Err e)) }
    ensures right { IfOk result (λ c. IsRight rows.now target.now c) }
    ensures entailed { OnOk result (Entails rows.now target.now) }
    ensures unentailed { ¬ (result ≡ Err (Refusal.Unentailed place)) }
{
    match shown(rows, target, certificate) {
        Ok(()) => copied(alloc, certificate),
        Err(fault) => Err(Refusal::BadMultipliers(place, fault)),
    }
}

/// The finder's certificate, if the rows entail the target.
fn found(alloc: Global, rows: &[Row], target: &Row, place: u32) -> Result<Cert, Refusal>
    requires few { length rows.now ≤ 128 }
    ensures accepted { IfOk result (λ c. shown_by place rows.now target.now Shown.Find ≡ Ok c) }
    ensures refused { IfErr result (λ e. (e ≡ Refusal.NoMemory) ⊎ (shown_by place rows.now target.now Shown.Find ≡ Err e)) }
    ensures right { IfOk result (λ c. IsRight rows.now target.now c) }
    ensures entailed { OnOk result (Entails rows.now target.now) }
    ensures unentailed { result ≡ Err (Refusal.Unentailed place) → ¬ (Entails rows.now target.now) }
{
    match find(alloc, rows, target) {
        Ok(Found::Shown(certificate)) => Ok(certificate),
        Ok(Found::NotEntailed) => Err(Refusal::Unentailed(place)),
        Err(fault) => Err(refusal_of(place, fault)),
    }
}

/// A certificate that at most 128 rows have no common solution: the given one, or the finder's.
///
/// # Errors
///
/// - `BadMultipliers` with 1 and the first fault of a given certificate that is wrong: `Form` where it has two parts or a
///   multiplier of a target;
/// - where the finder is asked: `Overflow(1)` or `TooLarge(Chain)` where its chain of eliminations leaves its range, and
///   else `Satisfiable` exactly where the rows have a common solution;
/// - `NoMemory`, at any time.
pub fn show_false(alloc: Global, rows: &[Row], show: &Shown) -> Result<Cert, Refusal>
    requires few { length rows.now ≤ 128 }
    ensures accepted { IfOk result (λ c. shown_false_by rows.now show.now ≡ Ok c) }
    ensures refused { IfErr result (λ e. (e ≡ Refusal.NoMemory) ⊎ (shown_false_by rows.now show.now ≡ Err e)) }
    ensures unsatisfiable { OnOk result (Unsatisfiable rows.now) }
    ensures satisfiable { result ≡ Err Refusal.Satisfiable → (u : Valuation) × All (RowHolds u) rows.now }
{
    match show {
        Shown::Given(certificate) => checked_false(alloc, rows, certificate),
        Shown::Find => found_false(alloc, rows),
    }
}

/// The given certificate, if it is right.
fn checked_false(alloc: Global, rows: &[Row], certificate: &Cert) -> Result<Cert, Refusal>
    requires few { length rows.now ≤ 128 }
    ensures accepted { IfOk result (λ c. shown_false_by rows.now (Shown.Given certificate.now) ≡ Ok c) }
    ensures refused { IfErr result (λ e. (e ≡ Refusal.NoMemory) ⊎ (shown_false_by rows.now (Shown.Given certificate.now) ≡ Err e)) }
    ensures unsatisfiable { OnOk result (Unsatisfiable rows.now) }
    ensures satisfiable { ¬ (result ≡ Err Refusal.Satisfiable) }
{
    let Cert::One(part) = certificate else {
        return Err(Refusal::BadMultipliers(1, CheckFault::Form));
    };
    match shown_false(rows, part) {
        Ok(()) => copied(alloc, certificate),
        Err(fault) => Err(Refusal::BadMultipliers(1, fault)),
    }
}

/// The finder's certificate, if the rows have no common solution.
fn found_false(alloc: Global, rows: &[Row]) -> Result<Cert, Refusal>
    requires few { length rows.now ≤ 128 }
    ensures accepted { IfOk result (λ c. shown_false_by rows.now Shown.Find ≡ Ok c) }
    ensures refused { IfErr result (λ e. (e ≡ Refusal.NoMemory) ⊎ (shown_false_by rows.now Shown.Find ≡ Err e)) }
    ensures unsatisfiable { OnOk result (Unsatisfiable rows.now) }
    ensures satisfiable { result ≡ Err Refusal.Satisfiable → (u : Valuation) × All (RowHolds u) rows.now }
{
    match find_false(alloc, rows) {
        Ok(Found::Shown(certificate)) => Ok(certificate),
        Ok(Found::NotEntailed) => Err(Refusal::Satisfiable),
        Err(fault) => Err(refusal_of(1, fault)),
    }
}
