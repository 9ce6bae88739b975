//! The lines of refusals.

use clp_model::{Limit, Name, Pred};
use farkas_check::CheckFault;
use map_base::{refusal_number, refusal_text};
use map_model::Refusal;
use std::alloc::Global;
use std::test::Fail;
use term_store::NoMemory;

const LINES: [(Refusal, u32, &str); 32] = [
    (Refusal::NoClause(7), 1, "1 no clause 7"),
    (Refusal::NoAtom(0), 2, "2 no atom 0"),
    (Refusal::NoRow(129), 3, "3 no row 129"),
    (
        Refusal::RepeatedPosition(4_294_967_295),
        4,
        "4 repeated position 4294967295",
    ),
    (Refusal::HeadNotVariables(2), 6, "6 head not variables 2"),
    (Refusal::EmptyDefinition, 7, "7 empty definition"),
    (Refusal::LooseVariable(3), 10, "10 loose variable 3"),
    (Refusal::Unmarked(12), 11, "11 unmarked 12"),
    (Refusal::NoMatch, 13, "13 no match"),
    (Refusal::BadWith(0), 14, "14 bad with 0"),
    (Refusal::BadWith(2), 14, "14 bad with 2"),
    (Refusal::LostVariable(256), 15, "15 lost variable 256"),
    (Refusal::Unentailed(2), 16, "16 unentailed 2"),
    (
        Refusal::BadMultipliers(1, CheckFault::Form),
        17,
        "17 bad multipliers 1 form",
    ),
    (
        Refusal::BadMultipliers(0, CheckFault::Count),
        17,
        "17 bad multipliers 0 count",
    ),
    (
        Refusal::BadMultipliers(2, CheckFault::Negative),
        17,
        "17 bad multipliers 2 negative",
    ),
    (
        Refusal::BadMultipliers(1, CheckFault::NotConstant),
        17,
        "17 bad multipliers 1 not constant",
    ),
    (
        Refusal::BadMultipliers(128, CheckFault::WrongSign),
        17,
        "17 bad multipliers 128 wrong sign",
    ),
    (Refusal::Satisfiable, 18, "18 satisfiable"),
    (Refusal::StillUsed(1), 20, "20 still used 1"),
    (Refusal::NotEqualAtoms(1, 2), 21, "21 not equal atoms 1 2"),
    (Refusal::NotNumber(4), 22, "22 not number 4"),
    (Refusal::Overflow(3), 23, "23 overflow 3"),
    (Refusal::TooLarge(Limit::Shape), 24, "24 too large shape"),
    (Refusal::TooLarge(Limit::Atoms), 24, "24 too large atoms"),
    (
        Refusal::TooLarge(Limit::Variables),
        24,
        "24 too large variables",
    ),
    (Refusal::TooLarge(Limit::Rows), 24, "24 too large rows"),
    (
        Refusal::TooLarge(Limit::Clauses),
        24,
        "24 too large clauses",
    ),
    (Refusal::TooLarge(Limit::Nodes), 24, "24 too large nodes"),
    (Refusal::TooLarge(Limit::Steps), 24, "24 too large steps"),
    (Refusal::TooLarge(Limit::Chain), 24, "24 too large chain"),
    (Refusal::NoMemory, 25, "25 no memory"),
];

/// Whether a refusal has this number, and this line after another text.
fn has_line(alloc: Global, refusal: &Refusal, number: u32, wanted: &str) -> Result<bool, NoMemory> {
    let mut text = String::from_str(alloc, "step 1: ")?;
    refusal_text(alloc, refusal, &mut text)?;
    Ok(refusal_number(refusal) == number && text.as_str().strip_prefix("step 1: ") == Some(wanted))
}

#[test]
fn lines_of_refusals(rt: HostRuntime) -> Result<(), Fail> {
    for (refusal, number, wanted) in LINES.iter() {
        assert!(rt; has_line(rt.alloc(), refusal, *number, wanted)?, "{wanted}");
    }
    Ok(())
}

/// A name, a number of arguments, and the predicate as it is printed.
static PREDICATES: [(&str, u32, &str); 4] = [
    ("p", 0, "p/0"),
    ("append", 3, "append/3"),
    ("A b", 4_294_967_295, "'A b'/4294967295"),
    ("it's", 1, "'it\\'s'/1"),
];

fn named(alloc: Global, name: &str, arity: u32) -> Result<Pred, NoMemory> {
    let name = Name::copy_of(alloc, name)?;
    Ok(Pred { name, arity })
}

/// Whether the refusals that name a predicate have their lines, with it as it is printed.
fn names_predicate(alloc: Global, name: &str, arity: u32, printed: &str) -> Result<bool, NoMemory> {
    let refusals = [
        (
            Refusal::NotFresh(named(alloc, name, arity)?),
            5,
            "5 not fresh ",
        ),
        (
            Refusal::RecursiveDefinition(named(alloc, name, arity)?),
            8,
            "8 recursive definition ",
        ),
        (
            Refusal::UnknownPredicate(named(alloc, name, arity)?),
            9,
            "9 unknown predicate ",
        ),
        (
            Refusal::NoDefinition(named(alloc, name, arity)?),
            12,
            "12 no definition ",
        ),
    ];
    for (refusal, number, words) in refusals.iter() {
        let mut wanted = String::from_str(alloc, words)?;
        wanted.push_str(printed)?;
        if !has_line(alloc, refusal, *number, wanted.as_str())? {
            return Ok(false);
        }
    }
    Ok(true)
}

#[test]
fn lines_with_predicates(rt: HostRuntime) -> Result<(), Fail> {
    for (name, arity, printed) in PREDICATES.iter() {
        assert!(rt;
            names_predicate(rt.alloc(), name, *arity, printed)?,
            "{printed}"
        );
    }
    Ok(())
}
