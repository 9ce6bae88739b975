//! Unifies equations that are hard for a textbook's algorithm, for `bench/run`: `unify_bench FAMILY SIZE TIMES` builds
//! the equations once, unifies them so many times, and then writes whether they can hold and how large the last
//! variable's image is.
#![tactic(auto)]

ghost use Rattle.std.specs.Prelude.{◌≤◌, ◌<◌, length, IfOk};
ghost use Rattle.unify_families.specs.Held.{AreHeld};

use clp_model::Sort;
use std::alloc::Global;
use std::process::ExitCode;
use std::{env, io};
use term_store::{Store, TermFault};
use unify::{Subst, apply, unify};
use unify_families::{Equations, Family};

/// The greatest size.
const MAX_SIZE: u32 = 1_000_000;

/// What was found.
#[derive(Clone, Copy, Debug)]
enum Found {
    NoUnifier,
    Large,
    Size(u32),
}

fn family_of(word: &str) -> Option<Family> {
    match word {
        "chain" => Some(Family::Chain),
        "chains" => Some(Family::Chains),
        "clashing" => Some(Family::ClashingChains),
        "cyclic" => Some(Family::CyclicChains),
        "row" => Some(Family::Row),
        "equal" => Some(Family::EqualTerms),
        "deep" => Some(Family::Deep),
        "again" => Some(Family::Again),
        _ => None,
    }
}

/// Unifies once, and puts the images into a variable.
#[tactic(auto, using(unify_families::proofs::Holding::pairs_kept, term_store::proofs::Keeping::keeps_within))]
fn once(alloc: Global, es: &mut Equations, last: u32) -> Result<Found, TermFault>
    requires { AreHeld es.old }
    ensures { AreHeld es.new }
{
    let Some(s) = unify(alloc, &es.store, es.pairs.as_slice())? else {
        return Ok(Found::NoUnifier);
    };
    let t = es.store.var(last, Sort::Any)?;
    match apply(&mut es.store, &s, t) {
        Ok(image) => Ok(Found::Size(es.store.size(image))),
        Err(TermFault::TooLarge) => Ok(Found::Large),
        Err(e) => Err(e),
    }
}

/// Unifies so many times, and tells what was found last.
fn measured(alloc: Global, family: Family, size: u32, times: u32) -> Result<Found, TermFault>
    requires { size ≤ 1000000 }
{
    let mut es = family.equations(alloc, size)?;
    let mut found = once(alloc, &mut es, size)?;
    for _ in 1..times {
        found = once(alloc, &mut es, size)?;
    }
    Ok(found)
}

/// What the words ask for: a family, a size and a number of times.
fn asked(words: &[String]) -> Option<(Family, u32, u32)> {
    match words {
        [_, family, size, times] => {
            let family = family_of(family.as_str())?;
            let size = size.as_str().parse::<u32>().ok()?;
            let times = times.as_str().parse::<u32>().ok()?;
            Some((family, size, times))
        }
        _ => None,
    }
}

fn main(rt: HostRuntime) -> io::Result<ExitCode> {
    let mut words = Vec::new(rt.alloc());
    for word in env::args(&rt)? {
        words.push(word)?;
    }
    let Some((family, size, times)) = asked(words.as_slice()) else {
        println!(rt; "usage: unify_bench FAMILY SIZE TIMES")?;
        return Ok(ExitCode::from(2));
    };
    if size > MAX_SIZE {
        println!(rt; "too large")?;
        return Ok(ExitCode::from(2));
    }
    match measured(rt.alloc(), family, size, times) {
        Ok(found) => println!(rt; "{found:?}")?,
        Err(_) => return Ok(ExitCode::from(8)),
    }
    Ok(ExitCode::SUCCESS)
}
