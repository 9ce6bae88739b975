//! Parts at the limit of multipliers and past it, and copies.

use farkas_check::{Cert, Part};
use lin_row::RowFault;
use std::alloc::{AllocError, Global};

/// The greatest magnitude of a multiplier.
const MOST: i64 = 72_057_594_037_927_935;

/// Whether a part with these numbers is made and tells them, or else hands them back.
fn is_made(alloc: Global, k: i64, m: &[i64]) -> Result<bool, AllocError> {
    Ok(match Part::make(k, Vec::from_slice(alloc, m)?) {
        Ok(part) => part.k() == k && part.multipliers() == m,
        Err(_) => false,
    })
}

fn is_handed_back(alloc: Global, k: i64, m: &[i64]) -> Result<bool, AllocError> {
    Ok(match Part::make(k, Vec::from_slice(alloc, m)?) {
        Ok(_) => false,
        Err(back) => back.as_slice() == m,
    })
}

#[test]
fn parts_keep_the_limit(rt: HostRuntime) -> Result<(), AllocError> {
    let alloc = rt.alloc();
    let made: [(i64, &[i64]); 5] = [
        (0, &[]),
        (1, &[1, 1, -1]),
        (MOST, &[MOST, -MOST]),
        (-MOST, &[0]),
        (MOST, &[-MOST, 0, MOST]),
    ];
    for (k, m) in made {
        assert!(rt; is_made(alloc, k, m)?, "k is {k}");
    }
    let refused: [(i64, &[i64]); 8] = [
        (MOST + 1, &[]),
        (-MOST - 1, &[1, 2]),
        (i64::MIN, &[1]),
        (i64::MAX, &[1]),
        (0, &[MOST + 1]),
        (0, &[1, 2, -MOST - 1]),
        (0, &[i64::MIN, 1]),
        (0, &[1, i64::MIN]),
    ];
    for (k, m) in refused {
        assert!(rt; is_handed_back(alloc, k, m)?, "k is {k}");
    }
    Ok(())
}

fn are_equal(a: &Part, b: &Part) -> bool {
    a.k() == b.k() && a.multipliers() == b.multipliers()
}

fn are_equal_certificates(a: &Cert, b: &Cert) -> bool {
    match a {
        Cert::One(part) => match b {
            Cert::One(other) => are_equal(part, other),
            Cert::Two(_first, _second) => false,
        },
        Cert::Two(first, second) => match b {
            Cert::One(_part) => false,
            Cert::Two(third, fourth) => are_equal(first, third) && are_equal(second, fourth),
        },
    }
}

fn part(alloc: Global, k: i64, m: &[i64]) -> Result<Part, RowFault> {
    let m = Vec::from_slice(alloc, m).map_err(|_| RowFault::NoMemory)?;
    Part::make(k, m).map_err(|_| RowFault::Overflow)
}

fn one(alloc: Global) -> Result<Cert, RowFault> {
    Ok(Cert::One(part(alloc, 2, &[3, -4])?))
}

fn two(alloc: Global) -> Result<Cert, RowFault> {
    Ok(Cert::Two(part(alloc, 5, &[])?, part(alloc, 2, &[3, -4])?))
}

fn is_copied(alloc: Global, cert: &Cert) -> Result<bool, RowFault> {
    Ok(are_equal_certificates(&cert.copy(alloc)?, cert))
}

#[test]
fn copies_are_the_same(rt: HostRuntime) -> Result<(), RowFault> {
    let alloc = rt.alloc();
    assert!(rt;
        is_copied(alloc, &one(alloc)?)?,
        "the copy of one part differs"
    );
    assert!(rt;
        is_copied(alloc, &two(alloc)?)?,
        "the copy of two parts differs"
    );
    Ok(())
}
