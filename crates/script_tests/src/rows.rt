//! Rows that are read from a place in a text.

ghost use Rattle.std.specs.Prelude.{◌≡◌};

use clause_printer::print_row;
use lin_row::Row;
use row_reader::row_at;
use std::alloc::Global;
use std::test::Fail;
use text_fault::{TextError, TextFault};
use token_model::Kind;

/// A text, a place, how the row there is printed, and the place of `show`.
static ROWS: [(&str, u32, &str, u32); 7] = [
    ("V1 = 2 show", 0, "V1 - 2 = 0", 7),
    ("add 3 row V1 = 2 show find.", 10, "V1 - 2 = 0", 17),
    ("add 3 row V1 = 2 show find.", 9, "V1 - 2 = 0", 17),
    ("V1<V2/*show*/show%", 0, "V1 - V2 < 0", 13),
    ("V1 = 2\nshow.", 0, "V1 - 2 = 0", 7),
    // within a word
    ("V1V2 = 2 show show", 2, "V2 - 2 = 0", 9),
    // behind characters of more than one byte
    ("% \u{e4}\nV1 = 2 show", 0, "V1 - 2 = 0", 12),
];

/// A text, a place, the place of the first fault, and its kind.
static FAULTS: [(&str, u32, u32, Kind); 7] = [
    ("add 3 row V0 = 2 show", 10, 10, Kind::BadVariable),
    ("add 3 row V1 = 2 'show'", 10, 17, Kind::Unexpected),
    ("add 3 row V1 = 2", 10, 16, Kind::UnexpectedEnd),
    ("add 3 row V1 = 2 show", 0, 4, Kind::Unexpected),
    ("V1 = 2 show", 11, 11, Kind::UnexpectedEnd),
    ("\u{e4} X = p show", 2, 3, Kind::BadVariable),
    ("V1 = p show", 0, 5, Kind::NotLinear),
];

/// The row at a place. None where no character begins there.
fn row(alloc: Global, text: &str, at: u32) -> Option<Result<(Row, u32), TextError>> {
    if text.len() < 1_000_000 && text.is_char_boundary(at as usize) {
        Some(row_at(alloc, text, at))
    } else {
        None
    }
}

fn is_printed(
    alloc: Global,
    found: Option<Result<(Row, u32), TextError>>,
    wanted: &str,
    show: u32,
) -> bool {
    match found {
        Some(Ok((row, at))) => {
            let mut text = String::new(alloc);
            print_row(&row, &mut text).is_ok() && text.as_str() == wanted && at == show
        }
        _ => false,
    }
}

fn has_fault(found: Option<Result<(Row, u32), TextError>>, wanted: TextFault) -> bool {
    match found {
        Some(Err(TextError::Fault(fault))) => fault == wanted,
        _ => false,
    }
}

#[test]
fn reads_rows_from_places(rt: HostRuntime) {
    for (text, at, wanted, show) in ROWS.iter() {
        let found = row(rt.alloc(), text, *at);
        assert!(rt; is_printed(rt.alloc(), found, wanted, *show), "{text}");
    }
}

#[test]
fn tells_faults_of_rows(rt: HostRuntime) {
    for (text, place, at, kind) in FAULTS.iter() {
        let wanted = TextFault {
            at: *at,
            kind: *kind,
        };
        assert!(rt; has_fault(row(rt.alloc(), text, *place), wanted), "{text}");
    }
}
