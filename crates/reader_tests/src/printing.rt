//! What is printed of a program that was read and loaded.

ghost use Rattle.std.specs.Prelude.{◌<◌, ◌^◌, length};
ghost use Rattle.clause_loader.specs.Loaded.{AreStored};

use clause_loader::load;
use clause_printer::print_clause;
use clause_store::Clause;
use clp_reader::read_program;
use std::alloc::Global;
use term_store::{NoMemory, Store};

/// A program, and what is printed of it.
type Case = (&'static str, &'static str);

static CASES: [Case; 13] = [
    ("", ""),
    ("p.", "p.\n"),
    (
        " p ( X,f (Y , _) ) :-\n\tq(X) , r. \r\n s .",
        "p(V1,f(V2,V3)) :- q(V1), r.\ns.\n",
    ),
    // numbers by first occurrence, the head first
    ("p(B,A,B) :- q(A,_).", "p(V1,V2,V1) :- q(V2,V3).\n"),
    ("p :- q(Y), r(X,Y).", "p :- q(V1), r(V2,V1).\n"),
    // printed programs stay as they are
    (
        "append(nil,V1,V1).\nappend(cons(V1,V2),V3,cons(V1,V4)) :- append(V2,V3,V4).\n",
        "append(nil,V1,V1).\nappend(cons(V1,V2),V3,cons(V1,V4)) :- append(V2,V3,V4).\n",
    ),
    // equal clauses stand twice
    ("p(a). p(a).", "p(a).\np(a).\n"),
    // rows, of which a new variable has one, and variables that are numbers in no row
    (
        "p(X) :- X > 2, X =< 5, q(X).",
        "p(V1) :- {-V1 + 2 < 0, V1 - 5 =< 0}, q(V1).\n",
    ),
    ("p(X+1).", "p(V1) :- {V1 - V2 - 1 = 0}.\n"),
    ("p(X) :- {num(X)}.", "p(V1) :- {num(V1)}.\n"),
    // equations are solved, and a clause without solution is left out
    ("p(X) :- X = f(Y), Y = a.", "p(f(a)).\n"),
    ("p(X) :- X = a, X = b. q.", "q.\n"),
    ("p([a,B|C],'it''s') :- [] = C.", "p([a,V1],'it\\'s').\n"),
];

/// Appends the texts of the clauses at these places.
fn print_clauses(
    alloc: Global,
    store: &Store,
    places: &[Option<Clause>],
    into: &mut String,
) -> Result<(), NoMemory>
    requires { AreStored store.now places.now }
{
    for place in places {
        if let Some(clause) = place {
            print_clause(alloc, store, clause, into)?;
        }
    }
    Ok(())
}

/// Whether this is printed of the program.
fn prints(alloc: Global, text: &[u8], wanted: &str) -> bool
    requires { length text.now < 2 ^ 32 }
{
    let Ok(source) = read_program(alloc, text) else {
        return false;
    };
    let Ok(loaded) = load(alloc, source.as_slice()) else {
        return false;
    };
    let mut printed = String::new(alloc);
    print_clauses(
        alloc,
        &loaded.store,
        loaded.clauses.as_slice(),
        &mut printed,
    )
    .is_ok()
        && printed.as_str() == wanted
}

#[test]
fn programs_are_printed(rt: HostRuntime) {
    for (text, wanted) in CASES.iter() {
        assert!(rt; text.len() < 4096);
        assert!(rt; prints(rt.alloc(), text.as_bytes(), wanted), "{text}");
    }
}
