//! Rows: signs, coefficients that are left out, constants and relations.

use clause_printer::print_row;
use lin_row::{Rel, Row};
use std::alloc::Global;

const LIMIT: i128 = 9_223_372_036_854_775_807;

/// A relation, the coefficients of the variables 1, 2, 3 and 10, a constant, and the text of the row's normal form.
type Case = (Rel, [i128; 4], i128, &'static str);

static CASES: [Case; 18] = [
    // the first term
    (Rel::Lt, [1, 0, 0, 0], 0, "V1 < 0"),
    (Rel::Lt, [-1, 0, 0, 0], 0, "-V1 < 0"),
    (Rel::Le, [3, 0, 0, 0], 1, "3*V1 + 1 =< 0"),
    (Rel::Le, [-3, 0, 0, 0], 1, "-3*V1 + 1 =< 0"),
    // later terms
    (Rel::Eq, [1, 1, 0, 0], 0, "V1 + V2 = 0"),
    (Rel::Eq, [1, -1, 0, 0], 0, "V1 - V2 = 0"),
    (Rel::Le, [2, 3, 0, 0], 0, "2*V1 + 3*V2 =< 0"),
    (Rel::Le, [2, -3, 0, 0], 0, "2*V1 - 3*V2 =< 0"),
    (Rel::Lt, [0, -2, 1, -5], 0, "-2*V2 + V3 - 5*V10 < 0"),
    // the constant
    (Rel::Eq, [1, -1, 0, 0], -1, "V1 - V2 - 1 = 0"),
    (Rel::Lt, [0, 0, 0, -1], 12, "-V10 + 12 < 0"),
    // no terms
    (Rel::Le, [0, 0, 0, 0], 0, "0 =< 0"),
    (Rel::Eq, [0, 0, 0, 0], 1, "1 = 0"),
    (Rel::Lt, [0, 0, 0, 0], -1, "-1 < 0"),
    // the normal form is what is printed
    (Rel::Eq, [-2, 4, 0, 0], 6, "V1 - 2*V2 - 3 = 0"),
    // the greatest numbers
    (
        Rel::Le,
        [LIMIT, 0, 0, 0],
        1,
        "9223372036854775807*V1 + 1 =< 0",
    ),
    (
        Rel::Le,
        [-LIMIT, 0, 0, 0],
        1,
        "-9223372036854775807*V1 + 1 =< 0",
    ),
    (
        Rel::Lt,
        [1, 0, 0, 0],
        -LIMIT,
        "V1 - 9223372036854775807 < 0",
    ),
];

fn prints(alloc: Global, case: &Case) -> bool {
    let c = case.1;
    let pairs = [(1, c[0]), (2, c[1]), (3, c[2]), (10, c[3])];
    let Ok(row) = Row::make(alloc, case.0, &pairs, case.2) else {
        return false;
    };
    let mut text = String::new(alloc);
    print_row(&row, &mut text).is_ok() && text.as_str() == case.3
}

#[test]
fn rows_are_printed(rt: HostRuntime) {
    for case in &CASES {
        assert!(&rt; prints(rt.alloc(), case));
    }
}
