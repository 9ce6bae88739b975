ghost use Rattle.std.specs.Prelude.{◌≡◌, ◌<◌, ◌≤◌, ◌+◌, ◌*◌, ◌-◌, ◌^◌, ◌++◌, [], ◌∷◌, false, ℕ, ℤ, List, ◌+ℤ◌, All, Err, IfOk, OnOk, length, unsigned_abs};
ghost use Rattle.std.specs.List.Sorted.{IsPermutation, IsNonDecreasingBy};
ghost use Rattle.linear_model.specs.Normal.{normal, is_within, limit};
ghost use Rattle.linear_model.specs.Changes.{renamed, renamed_pairs};
ghost use Rattle.lin_row.specs.Rows.{at, nonzero, IsKept, VariablesRise};
ghost use Rattle.lin_row.specs.Renaming as spec;
ghost use Rattle.lin_row.specs.Renaming.{moved, runs};
ghost use Rattle.lin_row.specs.declared.row.RowFault.TheVariants.{Overflow};

use crate::row::{INLINE, Row, RowFault};
use smallvec::SmallVec;
use std::alloc::{AllocError, Global};

/// The pair under its variable's new number.
fn renumbered(p: &(u32, i64), map: &[u32]) -> (u32, i64)
    requires above { 0 < p.now.0 }
    requires within { p.now.0 ≤ length map.now }
    ensures value { result ≡ (at map.now p.now.0, p.now.1) }
{
    (map[p.0 as usize - 1], p.1)
}

/// Each pair under its variable's new number.
fn all_renumbered(
    alloc: Global,
    pairs: &[(u32, i64)],
    map: &[u32],
) -> Result<SmallVec<(u32, i64), INLINE>, AllocError>
    requires numbered { All (λ p. (0 < p.0) × (p.0 ≤ length map.now)) pairs.now }
    ensures value { IfOk result (λ v. v.items ≡ moved (at map.now) pairs.now) }
{
    let mut entries = SmallVec::new(alloc);
    for p in pairs {
        match entries.push(renumbered(p, map)) {
            Ok(()) => {}
            Err(_) => return Err(AllocError),
        }
    }
    Ok(entries)
}

/// Sorts pairs by their variables.
fn sort_by_variable(entries: &mut [(u32, i64)])
    ensures exchanged { IsPermutation entries.old entries.new }
    ensures sorted { IsNonDecreasingBy (λ p. p.0) entries.new }
    ensures len { length entries.new ≡ length entries.old }
{
    entries.sort_unstable_by_key(|p| p.0);
}

/// The pairs by rising variables.
fn sorted(mut entries: SmallVec<(u32, i64), INLINE>) -> SmallVec<(u32, i64), INLINE>
    ensures exchanged { IsPermutation entries.items result.items }
    ensures order { IsNonDecreasingBy (λ p. p.0) result.items }
{
    sort_by_variable(entries.as_mut_slice());
    entries
}

/// The pair with room for a sum.
fn widened(p: &(u32, i64)) -> (u32, i128)
    ensures value { result ≡ p.now }
{
    (p.0, p.1 as i128)
}

/// The pair added to those before it of the same variable.
fn joined(run: &(u32, i128), p: &(u32, i64)) -> (u32, i128)
    requires run_small { unsigned_abs run.now.1 ≤ (2 ^ 64 - 1) * limit }
    requires small { unsigned_abs p.now.1 ≤ limit }
    ensures value { result ≡ (run.now.0, run.now.1 +ℤ p.now.1) }
    ensures bound { unsigned_abs result.1 ≤ unsigned_abs run.now.1 + limit }
{
    (run.0, run.1 + p.1 as i128)
}

/// The pair at the end.
fn push_run(into: &mut SmallVec<(u32, i128), INLINE>, run: &(u32, i128)) -> Result<(), AllocError>
    ensures value { OnOk result (into.new.items ≡ into.old.items ++ run.now ∷ []) }
{
    into.push(*run).map_err(|_| AllocError)
}

/// What is in front after the next pair, and what came before it at the end where that has another variable.
fn next_run(
    into: &mut SmallVec<(u32, i128), INLINE>,
    run: &(u32, i128),
    p: &(u32, i64),
) -> Result<(u32, i128), AllocError>
    requires run_small { unsigned_abs run.now.1 ≤ (2 ^ 64 - 1) * limit }
    requires small { unsigned_abs p.now.1 ≤ limit }
    ensures value { IfOk result (λ q. (rest : List (ℕ × ℤ)) → into.new.items ++ runs q rest ≡ into.old.items ++ runs run.now (p.now ∷ rest)) }
    ensures bound { IfOk result (λ q. unsigned_abs q.1 ≤ unsigned_abs run.now.1 + limit) }
{
    if p.0 == run.0 {
        return Ok(joined(run, p));
    }
    push_run(into, run)?;
    Ok(widened(p))
}

/// Pairs of one variable that stand side by side made one.
fn summed(
    alloc: Global,
    entries: &[(u32, i64)],
) -> Result<SmallVec<(u32, i128), INLINE>, AllocError>
    requires small { All (λ p. unsigned_abs p.1 ≤ limit) entries.now }
    ensures value { IfOk result (λ v. v.items ≡ spec.summed entries.now) }
{
    let mut sums = SmallVec::new(alloc);
    if entries.is_empty() {
        return Ok(sums);
    }
    let mut run = widened(&entries[0]);
    for i in 1..entries.len() {
        match next_run(&mut sums, &run, &entries[i]) {
            Ok(next) => run = next,
            Err(AllocError) => return Err(AllocError),
        }
    }
    push_run(&mut sums, &run)?;
    Ok(sums)
}

impl Row {
    /// The row with variable v as `map[v - 1]`, in normal form: the coefficients of variables that become one are
    /// added. It is `Overflow` exactly where a number of the normal form is out of range.
    pub fn rename(&self, alloc: Global, map: &[u32]) -> Result<Row, RowFault>
        requires numbered { All (λ p. (0 < p.0) × (p.0 ≤ length map.now)) self.now.pairs }
        ensures value { IfOk result (λ r. r ≡ normal (renamed (at map.now) self.now)) }
        ensures kept { IfOk result IsKept }
        ensures overflow { result ≡ Err Overflow → is_within (normal (renamed (at map.now) self.now)) ≡ false }
    {
        match self.renamed_sums(alloc, map) {
            Ok(sums) => Row::make(alloc, self.rel, sums.as_slice(), self.constant as i128),
            Err(AllocError) => Err(RowFault::NoMemory),
        }
    }

    /// The renamed pairs by rising variables.
    fn renamed_sums(
        &self,
        alloc: Global,
        map: &[u32],
    ) -> Result<SmallVec<(u32, i128), INLINE>, AllocError>
        requires numbered { All (λ p. (0 < p.0) × (p.0 ≤ length map.now)) self.now.pairs }
        ensures rise { IfOk result (λ v. VariablesRise v.items) }
        ensures value { IfOk result (λ v. nonzero v.items ≡ renamed_pairs (at map.now) self.now.pairs) }
    {
        let entries = sorted(all_renumbered(alloc, self.pairs.as_slice(), map)?);
        summed(alloc, entries.as_slice())
    }
}
