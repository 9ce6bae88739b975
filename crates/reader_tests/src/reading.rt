//! Programs that are read: what each text stands for.

ghost use Rattle.std.specs.Prelude.{◌<◌, ◌^◌, length};

use crate::showing::show;
use clp_reader::{read_clauses, read_program};
use std::alloc::Global;

/// A text and its clauses.
type Case = (&'static str, &'static str);

static CASES: [Case; 33] = [
    ("", ""),
    (
        " p ( X,f (Y , _) ) :-\n\tq(X) , r. \r\n s .",
        "p(V1,f(V2,V3)) :- q(V1), r. AAA\ns.",
    ),
    ("p. % q.\n/* r. */ s.", "p.\ns."),
    (
        ":- a :- b ; c -> [d. p. :- \\+ '.' (X) , 1.2 . q.",
        "p.\nq.",
    ),
    // names, brackets and `true`
    ("p(true) :- true(a).", "p(true) :- true(a)."),
    ("p :- true, q, (true), r.", "p :- q, r."),
    ("((p(X))) :- ((q(((X))))).", "p(V1) :- q(V1). A"),
    ("'P q'('it''s','\\n') :- 'p'.", "P q(it's,\n) :- p."),
    (
        "num(X) :- num(X), fail, false.",
        "num(V1) :- num(V1), fail, false. A",
    ),
    // variables are numbered as they are met, and `_` is a new one each time
    (
        "p(A,B,A,_,_,B,_A,__,_).",
        "p(V1,V2,V1,V3,V4,V2,V5,V6,V7). AAAAAAA",
    ),
    (
        "p(A,B,C,D,E,F,G,H,I,J,K,L,M,N,O,P,Q,P,Q,A,R,_,R,Q). p(Q).",
        "p(V1,V2,V3,V4,V5,V6,V7,V8,V9,V10,V11,V12,V13,V14,V15,V16,V17,V16,V17,V1,V18,V19,V18,V17). AAAAAAAAAAAAAAAAAAA\np(V1). A",
    ),
    // lists
    (
        "p([],[a],[a,X|T],'[]','.'(a,b)).",
        "p([],.(a,[]),.(a,.(V1,V2)),[],.(a,b)). AA",
    ),
    ("p([a|[b|[]]]).", "p(.(a,.(b,[])))."),
    // a linear expression that is a term is a new variable, after those that it has
    ("p(2).", "p(V1) :- {V1 - 2 = 0}. N"),
    ("p(X+1,X).", "p(V2,V1) :- {V1 - V2 + 1 = 0}. NN"),
    ("p(+X).", "p(V2) :- {V1 - V2 = 0}. NN"),
    ("p((X)).", "p(V1). A"),
    (
        "p([X,-(X)]) :- q(f(1)).",
        "p(.(V1,.(V2,[]))) :- {V1 + V2 = 0}, {V3 - 1 = 0}, q(f(V3)). NNN",
    ),
    ("p(1) :- q(X).", "p(V1) :- {V1 - 1 = 0}, q(V2). NA"),
    // relations: the left less the right, or the right less the left
    ("p(X) :- X > 2, q(X).", "p(V1) :- {-V1 + 2 < 0}, q(V1). N"),
    ("p(X) :- X < 2.", "p(V1) :- {V1 - 2 < 0}. N"),
    ("p(X) :- X =< 2.", "p(V1) :- {V1 - 2 =< 0}. N"),
    ("p(X) :- X >= 2.", "p(V1) :- {-V1 + 2 =< 0}. N"),
    ("p(X) :- -(X) >= - 2.", "p(V1) :- {V1 - 2 =< 0}. N"),
    ("p(X) :- X =:= 1/3 + 1/6.", "p(V1) :- {2*V1 - 1 = 0}. N"),
    ("p :- X - X =:= 0.", "p :- {0 = 0}. N"),
    (
        "p :- 7 - 2 - 3 =:= X, 8 / 2 / 2 =:= Y.",
        "p :- {V1 - 2 = 0}, {V2 - 2 = 0}. NN",
    ),
    (
        "p(X,Y) :- (X + 1) * 2 < Y / 3 * (2 - 1/2).",
        "p(V1,V2) :- {4*V1 - V2 + 4 < 0}. NN",
    ),
    // `=` is an equation of terms outside braces, and one of numbers inside
    (
        "p(X) :- X = f(Y), Z = X.",
        "p(V1) :- V1 = f(V2), V3 = V1. AAA",
    ),
    (
        "p(X) :- X = Y + 1.",
        "p(V1) :- V1 = V3, {V2 - V3 + 1 = 0}. ANN",
    ),
    ("p(X) :- {X = Y + 1}.", "p(V1) :- {V1 - V2 - 1 = 0}. NN"),
    (
        "p(X) :- {X =< 3, num(Y), Y = 2*X/4}.",
        "p(V1) :- {V1 - 3 =< 0}, {V1 - 2*V2 = 0}. NN",
    ),
    ("p(X) :- {num(X), num(Y) , num(X)}, q.", "p(V1) :- q. NN"),
];

/// Whether this is what the text stands for.
fn reads(alloc: Global, text: &[u8], wanted: &str) -> bool
    requires { length text.now < 2 ^ 32 }
{
    let Ok(clauses) = read_program(alloc, text) else {
        return false;
    };
    match show(alloc, clauses.as_slice()) {
        Ok(shown) => shown.as_str() == wanted,
        Err(_) => false,
    }
}

#[test]
fn reads_programs(rt: HostRuntime) {
    for (text, wanted) in CASES.iter() {
        assert!(rt; text.len() < 4096);
        assert!(rt; reads(rt.alloc(), text.as_bytes(), wanted), "{text}");
    }
}

/// Whether so many clauses are read of so many facts `p.`, or none.
fn counted(alloc: Global, count: usize) -> Option<usize> {
    let mut text = String::new(alloc);
    for _fact in 0..count {
        text.push_str("p. ").ok()?;
    }
    if text.len() >= 65536 {
        return None;
    }
    let clauses = read_clauses(alloc, text.as_bytes()).ok()?;
    Some(clauses.len())
}

#[test]
fn reads_as_many_clauses_as_there_may_be(rt: HostRuntime) {
    assert_eq!(rt; counted(rt.alloc(), 4096), Some(4096));
    assert_eq!(rt; counted(rt.alloc(), 4097), None);
}
