//! Predicates by first occurrence, each once.

ghost use Rattle.std.specs.Prelude.{◌≡◌, [], IfOk, OnOk};
ghost use Rattle.clp_model.specs.Predicates.{same_predicate, with_element};

use clause_store::Pred;
use clp_model::Name;
use indexmap::IndexSet;
use sqlite_items::Items;
use std::alloc::Global;
use std::marker::Model;
use term_store::NoMemory;

/// The predicates that were found so far. A predicate is looked up by its hash.
#[derive(Drop)]
pub struct Found {
    keys: IndexSet<(String, u32)>,
}

impl Model for Found {
    ghost use Rattle.std.specs.Prelude.{List};
    ghost use Rattle.clp_model.specs.declared.predicate.Pred.{Pred};

    ghost Value = { List Pred };

    ghost use Rattle.clause_loader.specs.Found.{predicates_at};

    ghost view = { λ f. predicates_at f.keys.keys };
}

impl Found {
    pub fn new(alloc: Global) -> Found
        ensures { result ≡ [] }
    {
        Found {
            keys: IndexSet::new(alloc),
        }
    }

    /// Puts a predicate last, unless it is there.
    pub fn note(&mut self, alloc: Global, name: &str, arity: u32) -> Result<(), NoMemory>
        ensures { OnOk result (self.new ≡ with_element same_predicate self.old (record { name = name.now; arity = arity })) }
    {
        let name = String::from_str(alloc, name)?;
        self.keys.insert((name, arity))?;
        Ok(())
    }

    /// The predicates in their order.
    pub fn list(&self, alloc: Global) -> Result<Items<Pred>, NoMemory>
        ensures { IfOk result (λ preds. preds ≡ self.now) }
    {
        let mut preds = Items::new(alloc);
        for key in self.keys.as_slice() {
            let name = Name::copy_of(alloc, key.0.as_str())?;
            preds.push(Pred { name, arity: key.1 })?;
        }
        Ok(preds)
    }
}
