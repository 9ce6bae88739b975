ghost use Rattle.std.specs.Prelude.{◌≡◌, ◌≤◌, ◌↔◌, length, pos, Ok, OnOk};
ghost use Rattle.linear_model.specs.Elimination as elimination;
ghost use Rattle.linear_model.specs.Certificates.{Entails, Unsatisfiable, ShowsFalse};
ghost use Rattle.farkas_check.specs.Checks as spec;
ghost use Rattle.farkas_check.specs.Right.{IsRight, answer};

use crate::cert::Cert;
use crate::check::{never_fault, side_fault};
use crate::fault::CheckFault;
use crate::part::Part;
use lin_row::{Rel, Row};

fn is_equation(row: &Row) -> bool
    ensures { result ≡ elimination.is_equation row.now.rel }
{
    match row.rel() {
        Rel::Eq => true,
        Rel::Le | Rel::Lt => false,
    }
}

/// The first fault of a certificate, if it has one.
fn cert_fault(rows: &[Row], target: &Row, cert: &Cert) -> Option<CheckFault>
    requires few { length rows.now ≤ 128 }
    ensures { result ≡ spec.shown_fault rows.now target.now cert.now }
{
    match cert {
        Cert::One(part) => {
            if is_equation(target) {
                return Some(CheckFault::Form);
            }
            side_fault(rows, target.rel(), false, target, part)
        }
        Cert::Two(first, second) => {
            if !is_equation(target) {
                return Some(CheckFault::Form);
            }
            match side_fault(rows, Rel::Le, false, target, first) {
                Some(fault) => Some(fault),
                None => side_fault(rows, Rel::Le, true, target, second),
            }
        }
    }
}

/// Whether the certificate shows the target from the rows; else its first fault, in the order of `CheckFault`, where
/// the first part decides first. It takes no memory.
pub fn shown(rows: &[Row], target: &Row, cert: &Cert) -> Result<(), CheckFault>
    requires few { length rows.now ≤ 128 }
    ensures fault { result ≡ answer (spec.shown_fault rows.now target.now cert.now) }
    ensures right { (result ≡ Ok tt) ↔ IsRight rows.now target.now cert.now }
    ensures entailed { OnOk result (Entails rows.now target.now) }
{
    match cert_fault(rows, target, cert) {
        Some(fault) => Err(fault),
        None => Ok(()),
    }
}

/// The first fault of a part that is to show the rows false, if it has one.
fn part_fault(rows: &[Row], part: &Part) -> Option<CheckFault>
    requires few { length rows.now ≤ 128 }
    ensures { result ≡ spec.false_fault rows.now part.now }
{
    if part.k() != 0 {
        return Some(CheckFault::Form);
    }
    never_fault(rows, part)
}

/// Whether the part shows that the rows have no common solution; else its first fault, in the order of `CheckFault`.
/// It takes no memory.
pub fn shown_false(rows: &[Row], part: &Part) -> Result<(), CheckFault>
    requires few { length rows.now ≤ 128 }
    ensures fault { result ≡ answer (spec.false_fault rows.now part.now) }
    ensures right { (result ≡ Ok tt) ↔ ((part.now.k ≡ pos 0) × ShowsFalse rows.now part.now) }
    ensures unsatisfiable { OnOk result (Unsatisfiable rows.now) }
{
    match part_fault(rows, part) {
        Some(fault) => Err(fault),
        None => Ok(()),
    }
}
