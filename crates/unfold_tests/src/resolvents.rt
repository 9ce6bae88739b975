//! Programs of plain clauses, unfolded.

ghost use Rattle.std.specs.Prelude.{◌<◌, ◌^◌, length};

use crate::building::{is_one_unfolding, printed};
use map_replay::{Step, apply, open_program, run_script};
use std::alloc::Global;
use std::test::Fail;
use term_store::NoMemory;

/// The program after a script of these steps; `None` where there is none.
fn after(alloc: Global, program: &str, steps: &str) -> Result<Option<String>, NoMemory>
    requires program { length program.now < 2 ^ 32 }
    requires steps { length steps.now < 4096 }
{
    let mut script = String::from_str(alloc, "map script 1.\n")?;
    script.push_str(steps)?;
    match open_program(alloc, program.as_bytes()) {
        Ok(mut state) => match run_script(alloc, &mut state, script.as_bytes()) {
            Ok(()) => Ok(Some(printed(alloc, &state)?)),
            Err(_) => Ok(None),
        },
        Err(_) => Ok(None),
    }
}

/// A program, steps, and the program after them.
type Case = (&'static str, &'static str, &'static str);

static CASES: [Case; 13] = [
    // a clause is unfolded by itself too
    ("p :- p. p.", "unfold 1 at 1.", "p.\np :- p.\np.\n"),
    ("p :- p.", "unfold 1 at 1. unfold 2 at 1.", "p :- p.\n"),
    (
        "append(nil,Y,Y). append(cons(X,Y),Z,cons(X,W)) :- append(Y,Z,W).",
        "unfold 2 at 1.",
        "append(nil,V1,V1).\nappend(cons(V1,nil),V2,cons(V1,V2)).\nappend(cons(V1,cons(V2,V3)),V4,cons(V1,cons(V2,V5))) :- append(V3,V4,V5).\n",
    ),
    // no clause matches: the clause goes
    ("p :- q. r.", "unfold 1 at 1.", "r.\n"),
    ("p :- q(a). q.", "unfold 1 at 1.", "q.\n"),
    (
        "p(X) :- q(X,X). q(Y,f(Y)).",
        "unfold 1 at 1.",
        "q(V1,f(V1)).\n",
    ),
    // a clause that an unfolding made is unfolded
    (
        "p(X) :- q(X). q(Y) :- r(Y). r(a).",
        "unfold 1 at 1. unfold 4 at 1.",
        "q(V1) :- r(V1).\nr(a).\np(a).\n",
    ),
    // and clauses that are no longer live take no part
    (
        "p :- q. q :- r. r.",
        "unfold 2 at 1. unfold 1 at 1.",
        "r.\nq.\np.\n",
    ),
    // the atoms of the other clause stand in the place of the atom
    (
        "p :- a, q, b. q :- c, d. q.",
        "unfold 1 at 2.",
        "q :- c, d.\nq.\np :- a, c, d, b.\np :- a, b.\n",
    ),
    (
        "p(X) :- q(X,Y), r(Y). q(Y,X) :- s(Y,X,Z), q(Z,Y).",
        "unfold 1 at 1.",
        "q(V1,V2) :- s(V1,V2,V3), q(V3,V1).\np(V1) :- s(V1,V2,V3), q(V3,V1), r(V2).\n",
    ),
    // both clauses are bound
    (
        "p(X,Z) :- q(f(X),Z). q(W,g(W)). q(h,i). q(f(a),V) :- s(V).",
        "unfold 1 at 1.",
        "q(V1,g(V1)).\nq(h,i).\nq(f(a),V1) :- s(V1).\np(V1,g(f(V1))).\np(a,V1) :- s(V1).\n",
    ),
    // with merges
    (
        "p(X) :- q(X), r(X). q(Y) :- r(Y).",
        "unfold 1 at 1. merge 3 at 1,2.",
        "q(V1) :- r(V1).\np(V1) :- r(V1).\n",
    ),
    (
        "p :- q, q. q :- r.",
        "merge 1 at 1,2. unfold 3 at 1.",
        "q :- r.\np :- r.\n",
    ),
];

#[test]
fn unfolds(rt: HostRuntime) -> Result<(), Fail> {
    for (program, steps, wanted) in CASES.iter() {
        assert!(rt; program.len() < 4096);
        assert!(rt; steps.len() < 4096);
        match after(rt.alloc(), program, steps)? {
            Some(found) => assert_eq!(rt; found.as_str(), *wanted, "{program} {steps}"),
            None => assert!(rt; false, "{program} {steps}"),
        }
    }
    Ok(())
}

/// Of `p :- p. p.` unfolded by itself, ids 2, 3 and 4 are live, and the made clauses tell of the step and their parents.
#[test]
fn made_clauses_have_ids_and_parents(rt: HostRuntime) -> Result<(), Fail> {
    let program = "p :- p. p.";
    assert!(rt; program.len() < 4096);
    let mut state = open_program(rt.alloc(), program.as_bytes())?;
    assert!(rt; apply(&mut state, &Step::Unfold { id: 1, at: 1 }).is_ok());
    assert_eq!(rt; state.live_ids()?.as_slice(), [2, 3, 4].as_slice());
    assert!(rt; (state.steps(), state.next_id(), state.nodes()) == (1, 5, 6));
    assert!(rt; is_one_unfolding(state.history()));
    for (id, by) in [(3, 1), (4, 2)] {
        match state.fetch(id) {
            Some(entry) => {
                assert!(rt; entry.live && entry.mark && entry.made_at == 1);
                assert_eq!(rt; entry.parents.as_slice(), [1, by].as_slice());
            }
            None => assert!(rt; false, "no clause {id}"),
        }
    }
    Ok(())
}
