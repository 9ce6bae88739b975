ghost use Rattle.std.specs.Prelude.{◌≡◌, ◌⊎◌, ◌<◌, ◌≤◌, Ok, Err, OnOk, OnErr, IfOk, IfErr, IfNone, length};
ghost use Rattle.clause_store.specs.Stored.{clause_in, raw_in, atoms_at, IsStored, IsRaw};
ghost use Rattle.map_model.specs.declared.refusal.Refusal.TheVariants.{NoMemory};
ghost use Rattle.map_model.specs.SameTree.{same_tree};
ghost use Rattle.clp_meaning.specs.Laws.{without_atom};
ghost use Rattle.map_model.specs.Merging.{first_broken, atom_of, merge_after};
ghost use Rattle.map_state.specs.Seen.{state_of};
ghost use Rattle.map_state.specs.Changes.{placed};

use clause_fold::in_range;
use clause_store::{Clause, RawClause, copy_clause};
use map_state::{Refusal, Replacement, State, Step, in_place};
use std::alloc::Global;
use term_store::{NoMemory, Store};

/// `merge C at I,J`: a clause with two equal atoms is replaced by the same without the second, with the mark as it was.
/// Refused where the clause isn't live (`NoClause`), a position isn't one of its body (`NoAtom`), both are the same
/// (`RepeatedPosition`), the atoms differ (`NotEqualAtoms`), or a limit would be past (`TooLarge`), the first of these in
/// this order, or where memory is wanting. The state then stays as it was. After Tamaki and Sato (1984).
pub fn merge(state: &mut State, id: u32, first: u32, second: u32) -> Result<Step, Refusal>
    requires { length (state_of state.old).steps < 100000 }
    ensures accepted { OnOk result (merge_after (state_of state.old) id first second ≡ Ok (state_of state.new)) }
    ensures filled { IfOk result (λ step. step ≡ Step.Merge id first second) }
    ensures refused { IfErr result (λ e. (e ≡ Refusal.NoMemory) ⊎ (merge_after (state_of state.old) id first second ≡ Err e)) }
    ensures unchanged { OnErr result (state_of state.new ≡ state_of state.old) }
{
    let replacement = merged(state, id, first, second)?;
    in_place(state, id, replacement)
}

/// What takes the clause's place, or the first broken condition.
fn merged(state: &State, id: u32, first: u32, second: u32) -> Result<Replacement, Refusal>
    ensures accepted { IfOk result (λ r. merge_after (state_of state.now) id first second ≡ placed (state_of state.now) id r) }
    ensures raw { IfOk result (λ r. IsRaw r.scratch r.raw) }
    ensures step { IfOk result (λ r. r.step ≡ Step.Merge id first second) }
    ensures refused { IfErr result (λ e. (e ≡ Refusal.NoMemory) ⊎ (merge_after (state_of state.now) id first second ≡ Err e)) }
{
    let Some(entry) = state.live_entry(id) else {
        return Err(Refusal::NoClause(id));
    };
    if let Some(refusal) = first_broken(state.store(), &entry.clause, first, second) {
        return Err(refusal);
    }
    let alloc = state.alloc();
    let mut scratch = Store::new(alloc);
    let place = (second - 1) as usize;
    let raw = without_atom(alloc, &mut scratch, state.store(), &entry.clause, place)?;
    let step = Step::Merge { id, first, second };
    Ok(Replacement { raw, step, scratch })
}

/// The first broken condition on the positions, if there is one.
#[tactic(auto, using(crate::proofs::SameTrees::length_atoms))]
fn first_broken(store: &Store, clause: &Clause, first: u32, second: u32) -> Option<Refusal>
    requires { IsStored store.now clause.now }
    ensures value { result ≡ first_broken (atoms_at store.now clause.now.atoms) first second }
    ensures within { IfNone result ((0 < second) × (second ≤ length clause.now.atoms)) }
{
    let count = clause.atoms.len();
    if !in_range(count, first) {
        return Some(Refusal::NoAtom(first));
    }
    if !in_range(count, second) {
        return Some(Refusal::NoAtom(second));
    }
    if first == second {
        return Some(Refusal::RepeatedPosition(second));
    }
    if !same_atoms(store, clause, first, second) {
        return Some(Refusal::NotEqualAtoms(first, second));
    }
    None
}

/// Whether the atoms at these positions are equal.
fn same_atoms(store: &Store, clause: &Clause, first: u32, second: u32) -> bool
    requires stored { IsStored store.now clause.now }
    requires first { (0 < first) × (first ≤ length clause.now.atoms) }
    requires second { (0 < second) × (second ≤ length clause.now.atoms) }
    ensures { result ≡ same_tree (atom_of (atoms_at store.now clause.now.atoms) first) (atom_of (atoms_at store.now clause.now.atoms) second) }
{
    let atoms = clause.atoms.as_slice();
    store.same(atoms[(first - 1) as usize], atoms[(second - 1) as usize])
}

/// The parts of a clause without the atom at this place, in another store.
fn without_atom(
    alloc: Global,
    scratch: &mut Store,
    store: &Store,
    clause: &Clause,
    place: usize,
) -> Result<RawClause, NoMemory>
    requires stored { IsStored store.now clause.now }
    requires within { place < length clause.now.atoms }
    ensures is { IfOk result (λ raw. raw_in scratch.new raw ≡ without_atom (clause_in store.now clause.now) place) }
    ensures raw { IfOk result (λ raw. IsRaw scratch.new raw) }
{
    let copy = copy_clause(alloc, scratch, store, clause)?;
    let Clause {
        head,
        rows,
        mut atoms,
        sorts,
    } = copy;
    let _ = atoms.remove(place);
    Ok(RawClause {
        head,
        rows,
        atoms,
        sorts,
    })
}
