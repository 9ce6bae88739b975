//! Names, plain and quoted.

use clause_printer::name_text;
use std::alloc::Global;

/// A name and its text.
type Case = (&'static str, &'static str);

static CASES: [Case; 20] = [
    ("a", "a"),
    ("append", "append"),
    ("p1_Q", "p1_Q"),
    // not plain
    ("", "''"),
    ("Append", "'Append'"),
    ("_a", "'_a'"),
    ("1a", "'1a'"),
    ("a b", "'a b'"),
    ("a-b", "'a-b'"),
    ("[]", "'[]'"),
    (".", "'.'"),
    // escapes
    ("it's", "'it\\'s'"),
    ("\\", "'\\\\'"),
    ("a\nb", "'a\\nb'"),
    ("\t", "'\\t'"),
    ("\\n", "'\\\\n'"),
    // all else as it is
    ("\r", "'\r'"),
    ("\"", "'\"'"),
    // characters of two and three bytes
    ("größe", "'größe'"),
    ("'→", "'\\'→'"),
];

fn prints(alloc: Global, case: &Case) -> bool {
    let mut text = String::new(alloc);
    name_text(case.0, &mut text).is_ok() && text.as_str() == case.1
}

/// Whether a text that has something stands before the name.
fn appends(alloc: Global) -> bool {
    let mut text = String::new(alloc);
    text.push_str("p :- ").is_ok()
        && name_text("Q", &mut text).is_ok()
        && text.as_str() == "p :- 'Q'"
}

#[test]
fn names_are_printed(rt: HostRuntime) {
    for case in &CASES {
        assert!(&rt; prints(rt.alloc(), case));
    }
    assert!(&rt; appends(rt.alloc()));
}
