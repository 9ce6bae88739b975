//! The places of faults, and the lines of texts that are refused.

use clause_loader::LoadFault;
use clp_model::Limit;
use map_model::Refusal;
use replay_model::ReplayFault;
use status_lines::{fault_line, long_program_line, long_script_line};
use std::test::Fail;
use text_fault::{TextError, TextFault, told};
use token_model::{Fault, Kind, ReadError};

const LINES: [(ReplayFault, &str); 9] = [
    (
        ReplayFault::Program(TextFault {
            at: 0,
            kind: Kind::NotUtf8,
        }),
        "bad program: byte 0: not utf-8\n",
    ),
    (
        ReplayFault::Program(TextFault {
            at: 17,
            kind: Kind::NotAnAtom,
        }),
        "bad program: byte 17: not an atom\n",
    ),
    (
        ReplayFault::Load(LoadFault::Overflow(3)),
        "bad program: clause 3: overflow\n",
    ),
    (
        ReplayFault::Load(LoadFault::TooLarge(4096, Limit::Nodes)),
        "bad program: clause 4096: too large nodes\n",
    ),
    (
        ReplayFault::Script(TextFault {
            at: 4_294_967_295,
            kind: Kind::UnexpectedEnd,
        }),
        "bad script: byte 4294967295: unexpected end\n",
    ),
    (
        ReplayFault::Script(TextFault {
            at: 30,
            kind: Kind::BadVariable,
        }),
        "bad script: byte 30: bad variable\n",
    ),
    (
        ReplayFault::Refused(2, Refusal::NotEqualAtoms(1, 3)),
        "refused: step 2: 21 not equal atoms 1 3\n",
    ),
    (
        ReplayFault::Refused(100_000, Refusal::Unmarked(2)),
        "refused: step 100000: 11 unmarked 2\n",
    ),
    (ReplayFault::NoMemory, ""),
];

#[test]
fn lines_of_faults(rt: HostRuntime) -> Result<(), Fail> {
    for (fault, wanted) in LINES.iter() {
        let line = fault_line(rt.alloc(), fault)?;
        assert_eq!(rt; line.as_str(), *wanted);
    }
    Ok(())
}

#[test]
fn lines_of_lengths(rt: HostRuntime) -> Result<(), Fail> {
    assert_eq!(rt;
        long_program_line(),
        "bad program: longer than 1048576 bytes\n"
    );
    assert_eq!(rt;
        long_script_line(),
        "bad script: longer than 16777216 bytes\n"
    );
    Ok(())
}

#[test]
fn places_from_the_front(rt: HostRuntime) -> Result<(), Fail> {
    let fault = Fault {
        left: 3,
        kind: Kind::TooDeep,
    };
    let placed = TextFault {
        at: 7,
        kind: Kind::TooDeep,
    };
    let read: Result<u8, ReadError> = Err(ReadError::Fault(fault));
    assert_eq!(rt; told(10, read), Err(TextError::Fault(placed)));
    let read: Result<u8, ReadError> = Err(ReadError::NoMemory);
    assert_eq!(rt; told(10, read), Err(TextError::NoMemory));
    assert_eq!(rt; told(10, Ok(5u8)), Ok(5u8));
    Ok(())
}
