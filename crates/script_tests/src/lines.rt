//! Lines that are one step, none, or faults.

use map_model::Step;
use script_text::{print_step, read_step};
use std::alloc::Global;
use std::test::Fail;
use text_fault::{TextError, TextFault};
use token_model::Kind;

/// A line, and how its step is printed: as nothing where it has none.
static LINES: [(&str, &str); 9] = [
    ("", ""),
    (" \t\r\n", ""),
    ("% merge 1 at 1,2.", ""),
    ("/* merge 1 at 1,2. */", ""),
    ("merge 1 at 1,2.", "merge 1 at 1,2."),
    ("  merge 01 at 1 , 2 . % c", "merge 1 at 1,2."),
    ("unfold 2 at 3.\n", "unfold 2 at 3."),
    (
        "add 1 row V1 < 3 show find.",
        "add 1 row V1 - 3 < 0 show find.",
    ),
    (
        "delete 1 false show [1,-2]/[3].",
        "delete 1 false show [1,-2]/[3].",
    ),
];

/// A line, the place of its first fault, and its kind.
static FAULTS: [(&str, u32, Kind); 10] = [
    ("merge 1 at 1,2. merge 1 at 1,2.", 16, Kind::Unexpected),
    ("merge 1 at 1,2..", 14, Kind::BadToken),
    ("merge 1 at 1,2. $", 16, Kind::BadToken),
    ("merge 1 at 1,2", 14, Kind::UnexpectedEnd),
    ("merge 1 at 1,4294967296.", 13, Kind::BadNumber),
    ("map script 1.", 0, Kind::Unexpected),
    ("'merge' 1 at 1,2.", 0, Kind::Unexpected),
    (" .", 1, Kind::Unexpected),
    ("/* ", 0, Kind::BadToken),
    ("add 1 row V0 = 1 show find.", 10, Kind::BadVariable),
];

fn read(alloc: Global, line: &str) -> Result<Option<Step>, TextError> {
    if line.len() > 1_000_000 {
        return Err(TextError::NoMemory);
    }
    read_step(alloc, line.as_bytes())
}

/// The first fault of a line.
pub fn first_fault_in(alloc: Global, line: &str) -> Option<TextFault> {
    match read(alloc, line) {
        Err(TextError::Fault(fault)) => Some(fault),
        _ => None,
    }
}

#[test]
fn reads_lines(rt: HostRuntime) -> Result<(), Fail> {
    for (line, wanted) in LINES.iter() {
        let mut text = String::new(rt.alloc());
        if let Some(step) = read(rt.alloc(), line)? {
            print_step(&step, &mut text)?;
        }
        assert_eq!(rt; text.as_str(), *wanted);
    }
    Ok(())
}

#[test]
fn finds_the_first_fault_of_a_line(rt: HostRuntime) {
    for (line, at, kind) in FAULTS.iter() {
        let wanted = TextFault {
            at: *at,
            kind: *kind,
        };
        assert_eq!(rt; first_fault_in(rt.alloc(), line), Some(wanted), "{line}");
    }
}

/// Whether the step has these numbers.
fn is_merge(step: Option<Step>, wanted: (u32, u32, u32)) -> bool {
    match step {
        Some(Step::Merge { id, first, second }) => (id, first, second) == wanted,
        _ => false,
    }
}

#[test]
fn reads_fields_in_their_order(rt: HostRuntime) -> Result<(), Fail> {
    let step = read(rt.alloc(), "merge 3 at 1,2.")?;
    assert!(rt; is_merge(step, (3, 1, 2)));
    Ok(())
}
