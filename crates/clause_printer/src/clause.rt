//! Prints clauses.

ghost use Rattle.std.specs.Prelude.{◌≡◌, ◌++◌, map, OnOk, OnErr, string_bytes, codes};
ghost use Rattle.term_store.specs.Trees.{AreIn};
ghost use Rattle.clause_store.specs.Stored.{atoms_at, clause_in, IsStored};
ghost use Rattle.print_model.specs.Joined.{joined};
ghost use Rattle.print_model.specs.Terms.{atom_text};
ghost use Rattle.print_model.specs.Rows.{row_text};
ghost use Rattle.print_model.specs.Clauses as spec;

use crate::constraints::{loose_nums, print_braces};
use crate::term::atom;
use clause_store::{Clause, Row};
use std::alloc::Global;
use term_store::{NoMemory, Store, Term};

/// Appends the body atoms, the first after this mark.
#[tactic(auto, using(std::proofs::lemmas::List::append_assoc))]
fn atoms(store: &Store, mark: &str, atoms: &[Term], into: &mut String) -> Result<(), NoMemory>
    requires { AreIn store.now atoms.now }
    ensures { OnOk result (string_bytes into.new ≡ string_bytes into.old ++ joined mark.now (codes ", ") (map atom_text (atoms_at store.now atoms.now))) }
{
    let Some((first, rest)) = atoms.split_first() else {
        return Ok(());
    };
    into.push_str(mark)?;
    atom(store, *first, into)?;
    for t in rest {
        into.push_str(", ")?;
        atom(store, *t, into)?;
    }
    Ok(())
}

/// Appends ` :- ` and the goals, if there are any.
#[tactic(auto, using(std::proofs::lemmas::List::append_assoc, crate::proofs::Bodies::no_constraint, crate::proofs::Bodies::some_constraint))]
fn body(
    store: &Store,
    rows: &[Row],
    nums: &[usize],
    body: &[Term],
    into: &mut String,
) -> Result<(), NoMemory>
    requires { AreIn store.now body.now }
    ensures { OnOk result (string_bytes into.new ≡ string_bytes into.old ++ joined (codes " :- ") (codes ", ") (spec.braces (map row_text rows.now ++ map spec.num_text nums.now) ++ map atom_text (atoms_at store.now body.now))) }
{
    if rows.is_empty() && nums.is_empty() {
        return atoms(store, " :- ", body, into);
    }
    into.push_str(" :- ")?;
    print_braces(rows, nums, into)?;
    atoms(store, ", ", body, into)
}

/// Appends the text of a clause of this store: the head, ` :- ` and the goals if there are any, `.` and a line feed.
/// The first goal is the rows and `num(V)` for each Num variable in no row, in braces. Variable 1 is printed `V1`.
/// After an error `into` is as before.
#[tactic(auto, using(std::proofs::lemmas::List::append_assoc), unfolding(print_model::specs::Clauses::clause_text))]
pub fn print_clause(
    alloc: Global,
    store: &Store,
    c: &Clause,
    into: &mut String,
) -> Result<(), NoMemory>
    requires { IsStored store.now c.now }
    ensures ok { OnOk result (string_bytes into.new ≡ string_bytes into.old ++ spec.clause_text (clause_in store.now c.now)) }
    ensures err { OnErr result (string_bytes into.new ≡ string_bytes into.old) }
{
    let nums = loose_nums(alloc, c.rows.as_slice(), c.sorts.as_slice())?;
    let mut text = String::new(alloc);
    atom(store, c.head, &mut text)?;
    body(
        store,
        c.rows.as_slice(),
        nums.as_slice(),
        c.atoms.as_slice(),
        &mut text,
    )?;
    text.push_str(".\n")?;
    into.push_str(text.as_str())?;
    Ok(())
}
