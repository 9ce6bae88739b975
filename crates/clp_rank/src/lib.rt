//! Total correctness by rank, first of abstract atoms and instances (`specs/Ranked`, `specs/Rules`), then of clauses: a program that was made from a base by
//! rules proves just what the base proves. After Tamaki and Sato (1984) and Etalle and Gabbrielli (1996). There
//! is no code here: each law is the contract of an empty function.
//!
//! `Ranked` says that for each proof of an atom in the base there is an instance of a live clause with that head
//! whose body has proofs in the base that weigh together no more, and less where the clause is marked. A proof
//! weighs its nodes, less one where its root's predicate is defined.
#![tactic(auto)]

ghost use Rattle.std.specs.Prelude.{◌≡◌, ◌↔◌, ℕ, List, Bool, true, false, Contains};
ghost use Rattle.clp_model.specs.Values.{GroundAtom};
ghost use Rattle.clp_model.specs.Proof.{Proof};
ghost use Rattle.clp_rank.specs.Weight.{weight};
ghost use Rattle.clp_rank.specs.Ranked.{InstanceIn, Carried, Ranked};
ghost use Rattle.clp_rank.specs.Rules.{Unfolds, Folds, Narrows, Subsumed, Useless, Keeps, Defines, With};
ghost use Rattle.clp_rank.specs.Least.{IsLeast, LeastCarried};
ghost use Rattle.clp_rank.specs.Entries.{Entry, setting, ProvableBy, RankedOver, Satisfies};

/// A ranked program proves just what its base proves.
pub fn ranked_programs_prove_what_their_base_proves()
    ensures { (defined : GroundAtom → Bool) (base live : List Entry) → RankedOver defined base live → (a : GroundAtom) → ProvableBy live a ↔ ProvableBy base a }
{}

/// A program is ranked over itself where all its clauses are marked and none of its atoms is defined.
pub fn start_is_ranked()
    ensures { (defined : GroundAtom → Bool) (base : List Entry) → ((e : Entry) → Contains base e → e.mark ≡ true) → ((a : GroundAtom) → defined a ≡ false) → RankedOver defined base base }
{}

/// Unfolding keeps the rank.
pub fn unfolding_keeps_rank()
    ensures { (defined : GroundAtom → Bool) (base live next : List Entry) (k : Entry) → Unfolds (setting defined) (Contains live) (Contains next) k → RankedOver defined base live → RankedOver defined base next }
{}

/// Folding a marked clause keeps the rank.
pub fn folding_keeps_rank()
    ensures { (defined : GroundAtom → Bool) (base live next : List Entry) (k folded n : Entry) → Folds (setting defined) (Contains base) (Contains live) (Contains next) k folded n → RankedOver defined base live → RankedOver defined base next }
{}

/// Taking one of two equal atoms out of a clause keeps the rank.
pub fn narrowing_keeps_rank()
    ensures { (defined : GroundAtom → Bool) (base live next : List Entry) (k narrower : Entry) → Narrows (setting defined) (Contains live) (Contains next) k narrower → RankedOver defined base live → RankedOver defined base next }
{}

/// Deleting a clause that another covers keeps the rank.
pub fn subsumption_keeps_rank()
    ensures { (defined : GroundAtom → Bool) (base live next : List Entry) (k e : Entry) → Subsumed (setting defined) (Contains live) (Contains next) k e → RankedOver defined base live → RankedOver defined base next }
{}

/// Deleting the clauses of useless predicates keeps the rank.
pub fn deleting_useless_clauses_keeps_rank()
    ensures { (defined inside : GroundAtom → Bool) (base live next : List Entry) → Useless (setting defined) (Contains live) (Contains next) (Satisfies inside) → RankedOver defined base live → RankedOver defined base next }
{}

/// Replacing a clause by one with the same instances, or taking away one without instances, keeps the rank. The
/// rules on rows do this: a row is added, dropped or projected, or two variables are equated.
pub fn same_instances_keep_rank()
    ensures { (defined : GroundAtom → Bool) (base live next : List Entry) (k : Entry) → Keeps (setting defined) (Contains live) (Contains next) k → RankedOver defined base live → RankedOver defined base next }
{}

/// A definition, which joins the base and the live clauses, keeps the rank; and it changes no old atom's proofs.
pub fn defining_keeps_rank()
    ensures ranked { (defined now_defined old : GroundAtom → Bool) (base live : List Entry) (n : Entry) → Defines (setting defined) now_defined (Contains base) (Contains live) n (Satisfies old) → RankedOver defined base live → Ranked (setting now_defined) (With (setting defined) (Contains base) n) (With (setting defined) (Contains live) n) }
    ensures old_atoms { (defined now_defined old : GroundAtom → Bool) (base live : List Entry) (n : Entry) → Defines (setting defined) now_defined (Contains base) (Contains live) n (Satisfies old) → (a : GroundAtom) → old a ≡ true → ProvableBy base a ↔ Proof (InstanceIn (setting defined) (With (setting defined) (Contains base) n)) a }
{}

/// What the rank says of least proofs: where an atom has a proof of the least weight, an instance of a live clause
/// has a body whose least weights are together no more, and less where the clause is marked; and back, where each
/// atom that has a proof has one of the least weight.
pub fn rank_by_least_proofs()
    ensures only { (defined : GroundAtom → Bool) (base live : List Entry) → RankedOver defined base live → (a : GroundAtom) (w : ℕ) → IsLeast (setting defined) (Contains base) a w → LeastCarried (setting defined) (Contains base) (Contains live) a w }
    ensures back { (defined : GroundAtom → Bool) (base live : List Entry) → ((a : GroundAtom) → ProvableBy base a → (w : ℕ) × IsLeast (setting defined) (Contains base) a w) → ((a : GroundAtom) (w : ℕ) → IsLeast (setting defined) (Contains base) a w → LeastCarried (setting defined) (Contains base) (Contains live) a w) → (a : GroundAtom) (p : Proof (InstanceIn (setting defined) (Contains base)) a) → Carried (setting defined) (Contains base) (Contains live) a (weight defined p) }
{}
