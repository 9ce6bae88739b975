//! Copies of clauses, before and after they are loaded, and of their parts. That a copy is equal is proved.

ghost use Rattle.std.specs.Prelude.{◌<◌, ◌^◌, length};

use clause_loader::load;
use clause_store::{Clause, SourceClause};
use clp_model::Pred;
use clp_reader::read_program;
use std::alloc::Global;
use std::test::Fail;
use text_fault::TextError;

/// A short name and one that is longer than a name's own room, and a constant, a term and variables.
const PROGRAM: &str = "p(f(a,X),Y) :- q(X), name_of_more_than_16_bytes(Y,Y).";

fn are_copied(alloc: Global, source: &[SourceClause]) -> bool {
    for clause in source {
        if clause.copy(alloc).is_err() || clause.head.copy(alloc).is_err() {
            return false;
        }
    }
    true
}

fn are_copied_in_store(alloc: Global, clauses: &[Option<Clause>]) -> bool {
    for place in clauses {
        match place {
            Some(clause) if clause.copy(alloc).is_ok() => {}
            _ => return false,
        }
    }
    true
}

fn are_predicates_copied(alloc: Global, preds: &[Pred]) -> bool {
    for pred in preds {
        if pred.copy(alloc).is_err() {
            return false;
        }
    }
    true
}

/// Whether the clauses of a text, those that they are loaded as, and their predicates can be copied.
fn has_copies(alloc: Global, text: &[u8]) -> Result<bool, TextError>
    requires { length text.now < 2 ^ 32 }
{
    let source = read_program(alloc, text)?;
    match load(alloc, source.as_slice()) {
        Ok(loaded) => Ok(
            are_copied(alloc, source.as_slice())
                && are_copied_in_store(alloc, loaded.clauses.as_slice())
                && are_predicates_copied(alloc, loaded.preds.as_slice()),
        ),
        Err(_) => Ok(false),
    }
}

#[test]
fn copies(rt: HostRuntime) -> Result<(), Fail> {
    assert!(rt; PROGRAM.len() < 4096);
    assert!(rt; has_copies(rt.alloc(), PROGRAM.as_bytes())?);
    Ok(())
}
