//! Small equations, and what becomes of terms where they hold, worked out by hand.

ghost use Rattle.std.specs.Prelude.{◌≡◌, ◌<◌, length, IfOk, OnOk};
ghost use Rattle.term_store.specs.Trees.{AreIn, Keeps};
ghost use Rattle.substitution.specs.Weights.{IsOf};

use crate::shapes::Shape::{self, Any, App, Num};
use crate::shapes::{put, put_pairs};
use std::alloc::Global;
use std::test::Fail;
use term_store::{Store, TermFault};
use unify::{Subst, apply, unify};

/// Pairs of terms, and if they can be made equal, some terms and what these become.
type Case = (&'static [(Shape, Shape)], Option<&'static [(Shape, Shape)]>);

const A: Shape = App("a", &[]);

const B: Shape = App("b", &[]);

static CASES: [Case; 30] = [
    // no equations, and one that always holds
    (&[], Some(&[(Any(1), Any(1))])),
    (&[(Any(1), Any(1))], Some(&[(Any(1), Any(1))])),
    // equal variables: the least stands for its class, whatever the order
    (
        &[(Any(1), Any(2))],
        Some(&[(Any(1), Any(1)), (Any(2), Any(1)), (Any(3), Any(3))]),
    ),
    (
        &[(Any(3), Any(2)), (Any(2), Any(5)), (Any(1), Any(7))],
        Some(&[(Any(5), Any(2)), (Any(3), Any(2)), (Any(7), Any(1))]),
    ),
    // a Num variable stands before each Any variable, and then the least
    (
        &[(Any(1), Num(4))],
        Some(&[(Any(1), Num(4)), (Num(4), Num(4))]),
    ),
    (
        &[(Num(4), Any(1)), (Any(1), Num(2)), (Any(0), Any(1))],
        Some(&[(Any(0), Num(2)), (Num(4), Num(2)), (Num(2), Num(2))]),
    ),
    (&[(Num(4), Num(2))], Some(&[(Num(4), Num(2))])),
    // one number, two sorts: different variables
    (
        &[(Any(1), Num(1))],
        Some(&[(App("f", &[Any(1), Num(1)]), App("f", &[Num(1), Num(1)]))]),
    ),
    (
        &[(Any(1), A), (Num(2), Num(1))],
        Some(&[(Any(1), A), (Num(2), Num(1)), (Any(2), Any(2))]),
    ),
    // a variable and an application, on both sides
    (
        &[(Any(1), A)],
        Some(&[(App("f", &[Any(1), Any(9)]), App("f", &[A, Any(9)]))]),
    ),
    (
        &[(A, Any(1)), (B, Any(2))],
        Some(&[(Any(1), A), (Any(2), B)]),
    ),
    // nested applications
    (
        &[(
            App("f", &[Any(1), App("g", &[Any(2)])]),
            App("f", &[App("g", &[Any(3)]), Any(1)]),
        )],
        Some(&[(Any(3), Any(2)), (Any(1), App("g", &[Any(2)]))]),
    ),
    (
        &[(
            App("f", &[Any(1), Num(2), A]),
            App("f", &[App("g", &[Any(3)]), Any(3), Any(4)]),
        )],
        Some(&[(
            App("h", &[Any(1), Any(3), Any(4)]),
            App("h", &[App("g", &[Num(2)]), Num(2), A]),
        )]),
    ),
    // an image inside an image
    (
        &[(Any(1), App("f", &[Any(2)])), (Any(2), A)],
        Some(&[(Any(1), App("f", &[A])), (Any(2), A)]),
    ),
    (
        &[
            (Any(1), App("f", &[Any(2), Any(2)])),
            (Any(2), App("f", &[Any(3), Any(3)])),
            (Any(3), Num(8)),
        ],
        Some(&[(
            Any(1),
            App(
                "f",
                &[App("f", &[Num(8), Num(8)]), App("f", &[Num(8), Num(8)])],
            ),
        )]),
    ),
    // two applications for one variable
    (
        &[
            (Any(1), App("f", &[Any(2), B])),
            (Any(1), App("f", &[A, Any(3)])),
        ],
        Some(&[(Any(1), App("f", &[A, B])), (Any(2), A), (Any(3), B)]),
    ),
    // clash of name
    (&[(A, B)], None),
    (&[(App("f", &[A]), App("g", &[A]))], None),
    (&[(App("f", &[Any(1), Any(1)]), App("f", &[A, B]))], None),
    (&[(Any(1), A), (Any(2), B), (Any(1), Any(2))], None),
    // clash of number of arguments
    (&[(A, App("a", &[A]))], None),
    (&[(App("f", &[A]), App("f", &[A, A]))], None),
    // clash of sort
    (&[(Num(1), A)], None),
    (&[(App("f", &[Any(2)]), Num(1))], None),
    (&[(Num(1), Any(1)), (Any(1), A)], None),
    (
        &[(App("f", &[Num(1)]), App("f", &[App("g", &[Any(2)])]))],
        None,
    ),
    // occurs check, directly and through two variables
    (&[(Any(1), App("f", &[Any(1)]))], None),
    (
        &[
            (Any(1), App("f", &[Any(2)])),
            (Any(2), App("g", &[A, Any(1)])),
        ],
        None,
    ),
    (&[(Any(1), Any(2)), (Any(1), App("f", &[Any(2)]))], None),
    (
        &[(
            App("f", &[Any(1), Any(2)]),
            App("f", &[App("g", &[Any(2)]), App("g", &[Any(1)])]),
        )],
        None,
    ),
];

/// Whether a term becomes another.
#[tactic(auto, using(term_store::proofs::Keeping::keeps_within, term_store::proofs::Keeping::keeps_trans, substitution::proofs::Kept::is_of_kept))]
fn becomes(
    alloc: Global,
    store: &mut Store,
    s: &Subst,
    image: &(Shape, Shape),
) -> Result<bool, TermFault>
    requires { IsOf store.old s.now }
    ensures { OnOk result (IsOf store.new s.now) }
{
    let t = put(alloc, store, &image.0)?;
    let wanted = put(alloc, store, &image.1)?;
    let found = apply(store, s, t)?;
    Ok(store.same(found, wanted))
}

/// Whether terms become others.
pub fn all_become(
    alloc: Global,
    store: &mut Store,
    s: &Subst,
    images: &[(Shape, Shape)],
) -> Result<bool, TermFault>
    requires { IsOf store.old s.now }
{
    for image in images {
        if !becomes(alloc, store, s, image)? {
            return Ok(false);
        }
    }
    Ok(true)
}

/// Whether a case is as it should be.
fn holds(alloc: Global, case: &Case) -> Result<bool, TermFault> {
    let mut store = Store::new(alloc);
    let pairs = put_pairs(alloc, &mut store, case.0)?;
    match (unify(alloc, &store, pairs.as_slice())?, case.1) {
        (None, None) => Ok(true),
        (Some(s), Some(images)) => all_become(alloc, &mut store, &s, images),
        _ => Ok(false),
    }
}

#[test]
fn small_equations(rt: HostRuntime) -> Result<(), Fail> {
    for (number, case) in CASES.iter().enumerate() {
        assert!(rt; holds(rt.alloc(), case)?, "case {number}");
    }
    Ok(())
}
