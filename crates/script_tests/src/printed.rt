//! Steps and scripts, printed.

use map_model::{Shown, Step};
use script_text::{print_script, print_step};
use std::alloc::Global;
use std::test::Fail;

fn is_printed(alloc: Global, steps: &[Step], wanted: &str) -> bool {
    let mut text = String::new(alloc);
    print_script(steps, &mut text).is_ok() && text.as_str() == wanted
}

#[test]
fn prints_scripts(rt: HostRuntime) {
    assert!(rt; is_printed(rt.alloc(), &[], "map script 1.\n"));
    let steps = [
        Step::Unfold { id: 1, at: 2 },
        Step::Merge {
            id: 30,
            first: 0,
            second: 4_294_967_295,
        },
        Step::Project { id: 4, var: 5 },
    ];
    let wanted = "map script 1.\nunfold 1 at 2.\nmerge 30 at 0,4294967295.\nproject 4 var 5.\n";
    assert!(rt; is_printed(rt.alloc(), &steps, wanted));
}

#[test]
fn prints_what_is_to_be_found(rt: HostRuntime) {
    let steps = [
        Step::DeleteFalse {
            id: 1,
            show: Shown::Find,
        },
        Step::Drop {
            id: 2,
            row: 3,
            show: Shown::Find,
        },
        Step::Equate {
            id: 6,
            var: 7,
            to: 8,
            show: Shown::Find,
        },
    ];
    let wanted =
        "map script 1.\ndelete 1 false show find.\ndrop 2 row 3 show find.\nequate 6 var 7 to 8 show find.\n";
    assert!(rt; is_printed(rt.alloc(), &steps, wanted));
}

#[test]
fn appends_a_step(rt: HostRuntime) -> Result<(), Fail> {
    let mut text = String::from_str(rt.alloc(), "% ")?;
    print_step(&Step::Unfold { id: 10, at: 1 }, &mut text)?;
    assert_eq!(rt; text.as_str(), "% unfold 10 at 1.");
    Ok(())
}
