//! The graph of the terms that equations reach.

ghost use Rattle.std.specs.Prelude.{◌≡◌, ◌<◌, ◌≤◌, ◌++◌, ◌∷◌, [], ℕ, List, length, IfOk, IfSome, OnOk};
ghost use Rattle.clp_model.specs.declared.tree.Variable.{Variable};
ghost use Rattle.clp_model.specs.declared.tree.Tree.{Tree, App};
ghost use Rattle.term_store.specs.Trees.{tree_at, trees_at, variable, AreIn};
ghost use Rattle.unify_closure.specs.Graph.{all_of};
ghost use Rattle.unify_closure.specs.Turns.{AllBelow};
ghost use Rattle.unify.specs.Graphs.{IsTermGraph, HasPlace, HavePlaces, Grows, Enters, node_tree};

use crate::places::VariablePlaces;
use clp_model::{Name, Sort};
use indexmap::IndexMap;
use sqlite_items::Items;
use std::alloc::Global;
use term_store::{Look, NoMemory, Store, Term};
use unify_closure::Node;

/// The nodes of terms of a store. Each application is entered once, however often it is met, and each variable has one
/// node. Arguments stand before their applications.
#[derive(Drop)]
pub(crate) struct TermGraph {
    alloc: Global,
    pub(crate) nodes: Vec<Node>,
    /// A term for each node.
    pub(crate) terms: Vec<Term>,
    /// The places of the applications.
    applications: IndexMap<Term, usize>,
    variables: VariablePlaces,
}

impl TermGraph {
    pub(crate) fn new(alloc: Global) -> TermGraph
        ensures { (store : List (Tree Variable)) → IsTermGraph store result }
    {
        TermGraph {
            alloc,
            nodes: Vec::new(alloc),
            terms: Vec::new(alloc),
            applications: IndexMap::new(alloc),
            variables: VariablePlaces::new(alloc),
        }
    }

    /// Puts a node last.
    fn put(&mut self, t: Term, node: Node) -> Result<usize, NoMemory>
        ensures place { IfOk result (λ p. p ≡ length self.old.nodes.items) }
        ensures nodes { OnOk result (self.new.nodes.items ≡ self.old.nodes.items ++ node ∷ []) }
        ensures terms { OnOk result (self.new.terms.items ≡ self.old.terms.items ++ t ∷ []) }
        ensures applications { self.new.applications ≡ self.old.applications }
        ensures variables { self.new.variables ≡ self.old.variables }
    {
        let place = self.nodes.len();
        self.nodes.push(node)?;
        self.terms.push(t)?;
        Ok(place)
    }

    /// The place of a variable, which is put last unless it is there.
    fn enter_variable(&mut self, t: Term, number: u32, sort: Sort) -> Result<usize, NoMemory>
        ensures { IfOk result (λ p. (store : List (Tree Variable)) → IsTermGraph store self.old → t < length store
            → tree_at store t ≡ variable number sort → Enters store self.old self.new (tree_at store t) p) }
    {
        if let Some(place) = self.variables.find(number, sort) {
            return Ok(place);
        }
        let place = self.put(t, Node::Var(number, sort))?;
        self.variables.note(number, sort, place)?;
        Ok(place)
    }

    /// Puts an application last.
    fn put_application(
        &mut self,
        t: Term,
        name: &str,
        args: Items<usize>,
    ) -> Result<usize, NoMemory>
        ensures { IfOk result (λ p. (store : List (Tree Variable)) → IsTermGraph store self.old → t < length store
            → AllBelow (length self.old.nodes.items) args → length args ≤ 4096
            → tree_at store t ≡ App name.now (all_of (node_tree store self.old.terms.items) args)
            → Enters store self.old self.new (tree_at store t) p) }
    {
        let name = Name::copy_of(self.alloc, name)?;
        let place = self.put(t, Node::App(name, args))?;
        self.applications.insert(t, place)?;
        Ok(place)
    }

    /// The place of a term. What is not there yet is put last.
    #[cycle(enter)]
    #[tactic(auto, using(clp_model::proofs::Trees::size_app, crate::proofs::Growing::few_arguments))]
    pub(crate) fn enter(&mut self, store: &Store, t: Term) -> Result<usize, NoMemory>
        requires within { t < length store.now }
        requires graph { IsTermGraph store.now self.old }
        ensures { IfOk result (Enters store.now self.old self.new (tree_at store.now t)) }
    {
        match store.look(t) {
            Look::Var(number, sort) => self.enter_variable(t, number, sort),
            Look::App(name, args) => {
                if let Some(place) = self.applications.get(&t) {
                    return Ok(*place);
                }
                let args = self.enter_all(store, args)?;
                self.put_application(t, name, args)
            }
        }
    }

    /// The same of several terms, in order.
    #[cycle(enter)]
    #[tactic(auto, using(clp_model::proofs::Trees::size_positive, crate::proofs::Growing::grows_itself))]
    fn enter_all(&mut self, store: &Store, terms: &[Term]) -> Result<Items<usize>, NoMemory>
        requires within { AreIn store.now terms.now }
        requires graph { IsTermGraph store.now self.old }
        ensures graph { OnOk result (IsTermGraph store.now self.new) }
        ensures grows { OnOk result (Grows self.old self.new) }
        ensures places { IfOk result (λ ps. HavePlaces store.now self.new ps (trees_at store.now terms.now)) }
    {
        let mut places = Items::new(self.alloc);
        for term in terms {
            let place = self.enter(store, *term)?;
            places.push(place)?;
        }
        Ok(places)
    }
}
