//! As many steps as a script may have, and one more.

use map_model::Step;
use script_text::read_script;
use sqlite_items::Items;
use std::alloc::{AllocError, Global};
use std::test::Fail;
use text_fault::{TextError, TextFault};
use token_model::Kind;

/// How many steps there are, or the first fault.
fn count(found: Result<Items<Step>, TextError>) -> Result<usize, Option<TextFault>> {
    match found {
        Ok(steps) => Ok(steps.len()),
        Err(TextError::Fault(fault)) => Err(Some(fault)),
        Err(TextError::NoMemory) => Err(None),
    }
}

/// What is read of a script that ends so, after 99,999 steps.
fn read_with_end(alloc: Global, end: &str) -> Result<Result<usize, Option<TextFault>>, AllocError> {
    let mut text = String::from_str(alloc, "map script 1.")?;
    text.push_str(" unfold 1 at 1.".repeat(alloc, 99_999)?.as_str())?;
    text.push_str(end)?;
    if text.len() > 2_000_000 {
        return Ok(Err(None));
    }
    Ok(count(read_script(alloc, text.as_bytes())))
}

/// The length of the version line and 99,999 steps.
const LEN: u32 = 1_499_998;

/// The end of a script, and the place of its first fault in the end, with its kind.
static FAULTS: [(&str, u32, Kind); 6] = [
    (" unfold 1 at 1. unfold 1 at 1.", 16, Kind::TooMany),
    (" merge 1 at 1,2. % all\nadd x", 23, Kind::TooMany),
    (" merge 1 at 1,2. at", 17, Kind::Unexpected),
    (" merge 1 at 1,2. 'merge'", 17, Kind::Unexpected),
    (" merge 1 at 1,2. $", 17, Kind::BadToken),
    (" merge 1 at 1,2", 15, Kind::UnexpectedEnd),
];

#[test]
fn reads_as_many_as_may_be(rt: HostRuntime) -> Result<(), Fail> {
    assert_eq!(rt; read_with_end(rt.alloc(), "")?, Ok(99_999));
    assert_eq!(rt;
        read_with_end(rt.alloc(), " merge 1 at 1,2. % all")?,
        Ok(100_000)
    );
    Ok(())
}

#[test]
fn finds_the_first_fault_past_the_limit(rt: HostRuntime) -> Result<(), Fail> {
    for (end, at, kind) in FAULTS.iter() {
        let wanted = TextFault {
            at: LEN + *at,
            kind: *kind,
        };
        assert_eq!(rt; read_with_end(rt.alloc(), end)?, Err(Some(wanted)), "{end}");
    }
    Ok(())
}
