//! The laws of meaning that a rewriting step rests on: what leaves the instances of a clause as they
//! are, and what leaves every ground atom's provability as it is. There is no code here: each law is
//! the contract of an empty function.
#![tactic(auto)]

ghost use Rattle.clp_meaning.specs.Laws.{NewClauseIsCanonical, CanonicalClauseStays, CanonicalFormKeepsInstances, LoadedClauseKeepsInstances, SameInstancesKeepProvability, MergeKeepsProvability};

/// What is made of a new clause is its canonical form, which is canonical again and within the limits.
pub fn new_clause_is_canonical()
    ensures { NewClauseIsCanonical }
{}

/// A canonical clause within the limits stays as it is.
pub fn canonical_clause_stays()
    ensures { CanonicalClauseStays }
{}

/// The canonical form of a clause has the same instances: numbering its variables anew changes none.
pub fn canonical_form_keeps_instances()
    ensures { CanonicalFormKeepsInstances }
{}

/// A source clause and the clause that it is loaded as have the same instances: a valuation of the one is carried
/// along to the other.
pub fn loaded_clause_keeps_instances()
    ensures { LoadedClauseKeepsInstances }
{}

/// Programs whose clauses have the same instances prove the same ground atoms.
pub fn same_instances_keep_provability()
    ensures { SameInstancesKeepProvability }
{}

/// Where a clause that has an atom twice is replaced by the canonical form of the clause without the
/// second of them, the program proves the same ground atoms.
pub fn merge_keeps_provability()
    ensures { MergeKeepsProvability }
{}
