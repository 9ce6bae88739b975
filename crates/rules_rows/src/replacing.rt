//! One variable in the place of another, in terms and in rows.

ghost use Rattle.std.specs.Prelude.{◌≡◌, ◌<◌, ◌≤◌, ℕ, false, All, Err, length, map, IfOk};
ghost use Rattle.clp_model.specs.declared.tree.Tree.{App};
ghost use Rattle.clp_model.specs.Trees.{mapped, mapped_all};
ghost use Rattle.linear_model.specs.Normal.{normal};
ghost use Rattle.linear_model.specs.Changes.{renamed};
ghost use Rattle.lin_row.specs.Rows.{at, IsKept};
ghost use Rattle.lin_row.specs.declared.row.RowFault.TheVariants.{Overflow};
ghost use Rattle.term_store.specs.Trees.{tree_at, trees_at, AreIn, HasTree, HaveTrees, Keeps, IsSmall};
ghost use Rattle.clause_model.specs.Variables.{rows_variables};
ghost use Rattle.clause_model.specs.Canonical.{all_within};
ghost use Rattle.clause_loader.specs.WellFormed.{IsNumber};
ghost use Rattle.replace_model.specs.Rows.{replacing};
ghost use Rattle.rules_rows.specs.Replaced.{with_other};

use clause_store::Row;
use lin_row::RowFault;
use sqlite_items::Items;
use std::alloc::Global;
use term_store::{Look, NoMemory, Store, Term, TermFault};

/// The number of the variable that stands in the place of this one.
fn number_for(number: u32, var: u32, to: u32) -> u32
    ensures { result ≡ replacing var to number }
{
    if number == var { to } else { number }
}

/// The application, which is known to be within the limits.
fn application(store: &mut Store, name: &str, args: &[Term]) -> Result<Term, NoMemory>
    requires within { AreIn store.old args.now }
    requires small { IsSmall (App name.now (trees_at store.old args.now)) }
    ensures keeps { Keeps store.old store.new }
    ensures made { IfOk result (λ t. HasTree store.new t (App name.now (trees_at store.old args.now))) }
{
    match store.app(name, args) {
        Ok(t) => Ok(t),
        Err(TermFault::TooLarge) => unreachable!(),
        Err(TermFault::NoMemory) => Err(NoMemory),
    }
}

/// A term of the store `into` with the tree of a term of the store `from`, where the one variable stands in the place of
/// the other.
#[cycle(replaced)]
#[tactic(auto, using(crate::proofs::Moved::other_var, clp_model::proofs::Trees::size_app))]
pub(crate) fn replaced(
    alloc: Global,
    into: &mut Store,
    from: &Store,
    t: Term,
    var: u32,
    to: u32,
) -> Result<Term, NoMemory>
    requires { t < length from.now }
    ensures keeps { Keeps into.old into.new }
    ensures made { IfOk result (λ r. HasTree into.new r (mapped (with_other var to) (tree_at from.now t))) }
{
    match from.look(t) {
        Look::Var(number, sort) => into.var(number_for(number, var, to), sort),
        Look::App(name, args) => {
            let made = replaced_all(alloc, into, from, args, var, to)?;
            application(into, name, made.as_slice())
        }
    }
}

/// The same of several terms, in order.
#[cycle(replaced)]
#[tactic(auto, using(substitution::proofs::Weighed::item_in, substitution::proofs::Weighed::item_size))]
pub(crate) fn replaced_all(
    alloc: Global,
    into: &mut Store,
    from: &Store,
    terms: &[Term],
    var: u32,
    to: u32,
) -> Result<Items<Term>, NoMemory>
    requires { AreIn from.now terms.now }
    ensures keeps { Keeps into.old into.new }
    ensures made { IfOk result (λ rs. HaveTrees into.new rs (mapped_all (with_other var to) (trees_at from.now terms.now))) }
{
    let mut all = Items::new(alloc);
    for term in terms {
        let one = replaced(alloc, into, from, *term, var, to)?;
        all.push(one)?;
    }
    Ok(all)
}

/// A table that has for each number, from 1 to the count, the number that stands in its place.
fn table(alloc: Global, count: u32, var: u32, to: u32) -> Result<Vec<u32>, NoMemory>
    requires { count ≤ 256 }
    ensures count { IfOk result (λ table. length table.items ≡ count) }
    ensures places { IfOk result (λ table. (n : ℕ) → 0 < n → n ≤ count → at table.items n ≡ replacing var to n) }
{
    let mut table = Vec::new(alloc);
    for place in 0..count {
        table.push(number_for(place + 1, var, to))?;
    }
    Ok(table)
}

/// The rows in normal form, with each variable as the table has it.
fn renamed_rows(alloc: Global, rows: &[Row], table: &[u32]) -> Result<Items<Row>, RowFault>
    requires { All (IsNumber (length table.now)) (rows_variables rows.now) }
    ensures rows { IfOk result (λ rs. rs ≡ map (λ r. normal (renamed (at table.now) r)) rows.now) }
    ensures kept { IfOk result (All IsKept) }
    ensures overflow { result ≡ Err Overflow → all_within (map (renamed (at table.now)) rows.now) ≡ false }
{
    let mut all = Items::new(alloc);
    for row in rows {
        let row = row.rename(alloc, table)?;
        match all.push(row) {
            Ok(()) => {}
            Err(_) => return Err(RowFault::NoMemory),
        }
    }
    Ok(all)
}

/// The rows in normal form, with the one variable in the place of the other. `Overflow` exactly where one is out of range.
pub(crate) fn replaced_rows(
    alloc: Global,
    rows: &[Row],
    count: u32,
    var: u32,
    to: u32,
) -> Result<Items<Row>, RowFault>
    requires few { count ≤ 256 }
    requires numbered { All (IsNumber count) (rows_variables rows.now) }
    ensures rows { IfOk result (λ rs. rs ≡ map (λ r. normal (renamed (replacing var to) r)) rows.now) }
    ensures kept { IfOk result (All IsKept) }
    ensures overflow { result ≡ Err Overflow → all_within (map (renamed (replacing var to)) rows.now) ≡ false }
{
    match table(alloc, count, var, to) {
        Ok(table) => renamed_rows(alloc, rows, table.as_slice()),
        Err(_) => Err(RowFault::NoMemory),
    }
}
