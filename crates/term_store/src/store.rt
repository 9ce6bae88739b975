ghost use Rattle.std.specs.Prelude.{◌≡◌, ℕ, ◌+◌, ◌<◌, ◌≤◌, ◌++◌, ◌∷◌, [], List, length, slice_get, Some, IfOk, IfSome, IfNone, OnOk, OnErr, IsErrOf, IsTrue, ◌↔◌};
ghost use Rattle.clp_model.specs.declared.tree.Tree.{App};
ghost use Rattle.clp_model.specs.Trees.{size, depth, total_size, greatest_depth};
ghost use Rattle.term_store.specs.Trees.{tree_at, trees_at, variable, AreIn, HasTree, HaveTrees, Keeps, IsSmall, IsOver, IsTooLarge};
ghost use Rattle.term_store.specs.Entries.{part, tree_of, IsPart, IsVariable, Measures, IsEntry, built, AreEntries};
ghost use Rattle.term_store.specs.Shows.{Shows};

use crate::fault::{NoMemory, TermFault};
use crate::term::{Look, Term};
use clp_model::{Name, Sort};
use smallvec::SmallVec;
use sqlite_items::Items;
use std::alloc::Global;
use std::cmp::max;
use std::marker::Model;

/// How many copied arguments lie in their list itself, without memory of their own.
const INLINE: usize = 8;

const MAX_SIZE: u32 = 4096;

const MAX_DEPTH: u32 = 256;

/// The greatest number of a variable that is found again. A clause of the limits has no larger one.
const MAX_NOTED: usize = 256;

/// Where the arguments of an application lie among those of all applications of its store.
#[derive(Clone, Copy)]
struct Span {
    start: usize,
    end: usize,
}

#[derive(Drop)]
enum Node {
    Var(u32, Sort),
    App(Name, Span),
}

#[derive(Drop)]
struct Entry {
    node: Node,
    size: u32,
    depth: u32,
}

/// Terms, each of size at most 4,096 and depth at most 256. A term is read in the store that made it.
#[derive(Drop)]
pub struct Store {
    alloc: Global,
    entries: Vec<Entry>,
    /// The arguments of all applications, one application after another.
    arguments: Vec<Term>,
    /// By their numbers, the terms that may be variables of these numbers: they are looked at before they are used.
    noted: Vec<Term>,
}

impl Model for Store {
    ghost use Rattle.std.specs.Prelude.{List, []};
    ghost use Rattle.std.specs.Coded.{coded_list};
    ghost use Rattle.clp_model.specs.declared.tree.Tree.{Tree};
    ghost use Rattle.clp_model.specs.declared.tree.Variable.{Variable};
    ghost use Rattle.clp_model.specs.contracts.tree.Tree as trees;
    ghost use Rattle.clp_model.specs.contracts.tree.Variable as variables;

    ghost Value = { List (Tree Variable) };

    ghost coded = { coded_list (trees.the_row variables.the_row).coded };

    ghost use Rattle.term_store.specs.Entries.{built, AreEntries};

    ghost view = { λ s. built s.arguments.items [] s.entries.items };

    ghost invariant = { λ s. AreEntries s.arguments.items [] s.entries.items };
}

/// Puts an entry last.
fn put(entries: &mut Vec<Entry>, arguments: &[Term], entry: Entry) -> Result<Term, NoMemory>
    requires are { AreEntries arguments.now [] entries.old.items }
    requires may_follow { IsEntry arguments.now (built arguments.now [] entries.old.items) entry }
    ensures are { AreEntries arguments.now [] entries.new.items }
    ensures keeps { Keeps (built arguments.now [] entries.old.items) (built arguments.now [] entries.new.items) }
    ensures made { IfOk result (λ t. HasTree (built arguments.now [] entries.new.items) t
        (tree_of arguments.now (built arguments.now [] entries.old.items) entry.node)) }
{
    let place = entries.len();
    entries.push(entry)?;
    Ok(Term { place })
}

/// Puts the arguments of an application last.
fn put_arguments(arguments: &mut Vec<Term>, args: &[Term]) -> Result<Span, NoMemory>
    ensures put { IfOk result (IsPart arguments.new.items args.now) }
    ensures ok { OnOk result (arguments.new.items ≡ arguments.old.items ++ args.now) }
    ensures err { OnErr result (arguments.new.items ≡ arguments.old.items) }
{
    let start = arguments.len();
    arguments.extend_from_slice(args)?;
    let end = arguments.len();
    Ok(Span { start, end })
}

/// The term that is noted for this number, if it is the variable of this number and sort.
fn find_variable(entries: &[Entry], noted: &[Term], number: u32, sort: Sort) -> Option<Term>
    ensures { IfSome result (IsVariable entries.now number sort) }
{
    let t = *noted.get(number as usize)?;
    if t.place >= entries.len() {
        return None;
    }
    let entry = &entries[t.place];
    match entry.node {
        Node::Var(n, s) if n == number && s == sort => Some(t),
        _ => None,
    }
}

/// Notes a variable, unless its number is large.
fn note_variable(noted: &mut Vec<Term>, number: u32, t: Term) -> Result<(), NoMemory>
    ensures { OnOk result (number ≤ 256 → slice_get noted.new.items number ≡ Some t) }
{
    let number = number as usize;
    if number > MAX_NOTED {
        return Ok(());
    }
    match noted.get_mut(number) {
        Some(place) => *place = t,
        None => noted.resize(number + 1, t)?,
    }
    Ok(())
}

/// The arguments of one application.
fn part(arguments: &[Term], span: Span) -> &[Term]
    requires order { span.start ≤ span.end }
    requires within { span.end ≤ length arguments.now }
    ensures { result.now ≡ part arguments.now span }
{
    &arguments[span.start..span.end]
}

impl Store {
    /// An empty store.
    pub fn new(alloc: Global) -> Store
        ensures { result ≡ [] }
    {
        Store {
            alloc,
            entries: Vec::new(alloc),
            arguments: Vec::new(alloc),
            noted: Vec::new(alloc),
        }
    }

    /// The number of the store's nodes.
    pub fn len(&self) -> usize
        ensures { result ≡ length self.now }
    {
        self.entries.len()
    }

    fn entry(&self, t: Term) -> &Entry
        requires { t < length self.now }
        ensures { Measures (tree_at self.now t) result.now.size result.now.depth }
    {
        &self.entries[t.place]
    }

    /// An application whose size and depth are known.
    #[tactic(auto, using(clp_model::proofs::Trees::size_app, clp_model::proofs::Trees::depth_app))]
    fn add(&mut self, name: &str, args: &[Term], size: u32, depth: u32) -> Result<Term, NoMemory>
        requires within { AreIn self.old args.now }
        requires size { size ≡ 1 + total_size (trees_at self.old args.now) }
        requires depth { depth ≡ 1 + greatest_depth (trees_at self.old args.now) }
        requires small { (size ≤ 4096) × (depth ≤ 256) }
        ensures keeps { Keeps self.old self.new }
        ensures made { IfOk result (λ t. HasTree self.new t (App name.now (trees_at self.old args.now))) }
    {
        let name = Name::copy_of(self.alloc, name)?;
        let span = put_arguments(&mut self.arguments, args)?;
        let node = Node::App(name, span);
        let entry = Entry { node, size, depth };
        put(&mut self.entries, self.arguments.as_slice(), entry)
    }

    /// The variable of this number and sort.
    #[tactic(auto, using(clp_model::proofs::Trees::size_var, clp_model::proofs::Trees::depth_var))]
    pub fn var(&mut self, number: u32, sort: Sort) -> Result<Term, NoMemory>
        ensures keeps { Keeps self.old self.new }
        ensures made { IfOk result (λ t. HasTree self.new t (variable number sort)) }
    {
        let found = find_variable(self.entries.as_slice(), self.noted.as_slice(), number, sort);
        if let Some(t) = found {
            return Ok(t);
        }
        let entry = Entry {
            node: Node::Var(number, sort),
            size: 1,
            depth: 1,
        };
        let t = put(&mut self.entries, self.arguments.as_slice(), entry)?;
        note_variable(&mut self.noted, number, t)?;
        Ok(t)
    }

    /// The number of nodes of a term.
    pub fn size(&self, t: Term) -> u32
        requires { t < length self.now }
        ensures value { result ≡ size (tree_at self.now t) }
        ensures small { result ≤ 4096 }
    {
        self.entry(t).size
    }

    /// 1 for a variable or a constant, and 1 more than the deepest argument for an application.
    pub fn depth(&self, t: Term) -> u32
        requires { t < length self.now }
        ensures value { result ≡ depth (tree_at self.now t) }
        ensures small { result ≤ 256 }
    {
        self.entry(t).depth
    }

    /// What a term is.
    pub fn look(&self, t: Term) -> Look<'_>
        requires { t < length self.now }
        ensures shows { Shows self.now (tree_at self.now t) result }
        ensures small { IsSmall (tree_at self.now t) }
    {
        match &self.entries[t.place].node {
            Node::Var(number, sort) => Look::Var(*number, *sort),
            Node::App(name, span) => {
                Look::App(name.as_str(), part(self.arguments.as_slice(), *span))
            }
        }
    }

    /// The size and the depth of an application to these arguments, or `None` where one is past its limit.
    fn measure(&self, args: &[Term]) -> Option<(u32, u32)>
        requires { AreIn self.now args.now }
        ensures size { IfSome result (λ m. m.0 ≡ 1 + total_size (trees_at self.now args.now)) }
        ensures depth { IfSome result (λ m. m.1 ≡ 1 + greatest_depth (trees_at self.now args.now)) }
        ensures small { IfSome result (λ m. (m.0 ≤ 4096) × (m.1 ≤ 256)) }
        ensures none { IfNone result (IsOver (1 + total_size (trees_at self.now args.now)) (1 + greatest_depth (trees_at self.now args.now))) }
    {
        let mut size = 1;
        let mut depth = 0;
        for arg in args {
            let entry = self.entry(*arg);
            size += entry.size;
            depth = max(depth, entry.depth);
            if size > MAX_SIZE {
                return None;
            }
        }
        if depth >= MAX_DEPTH {
            return None;
        }
        Some((size, depth + 1))
    }

    /// A name applied to terms of this store. `TooLarge` exactly where the size exceeds 4,096 or the depth 256.
    #[tactic(auto, using(clp_model::proofs::Trees::size_app, clp_model::proofs::Trees::depth_app))]
    pub fn app(&mut self, name: &str, args: &[Term]) -> Result<Term, TermFault>
        requires { AreIn self.old args.now }
        ensures keeps { Keeps self.old self.new }
        ensures made { IfOk result (λ t. HasTree self.new t (App name.now (trees_at self.old args.now))) }
        ensures small { OnOk result (IsSmall (App name.now (trees_at self.old args.now))) }
        ensures large { IsErrOf result TermFault.TooLarge → IsTooLarge (App name.now (trees_at self.old args.now)) }
    {
        let Some((size, depth)) = self.measure(args) else {
            return Err(TermFault::TooLarge);
        };
        Ok(self.add(name, args, size, depth)?)
    }

    /// Whether two terms have equal trees.
    #[cycle(same)]
    #[tactic(auto, using(clp_model::proofs::Trees::size_app, clp_model::proofs::Trees::app_injective))]
    pub fn same(&self, a: Term, b: Term) -> bool
        requires left { a < length self.now }
        requires right { b < length self.now }
        ensures { IsTrue result ↔ (tree_at self.now a ≡ tree_at self.now b) }
    {
        match (self.look(a), self.look(b)) {
            (Look::Var(n, s), Look::Var(m, r)) => n == m && s == r,
            (Look::App(f, xs), Look::App(g, ys)) => f == g && self.same_all(xs, ys),
            _ => false,
        }
    }

    #[cycle(same)]
    #[tactic(auto, using(clp_model::proofs::Trees::size_positive))]
    fn same_all(&self, xs: &[Term], ys: &[Term]) -> bool
        requires left { AreIn self.now xs.now }
        requires right { AreIn self.now ys.now }
        ensures { IsTrue result ↔ (trees_at self.now xs.now ≡ trees_at self.now ys.now) }
    {
        match (xs.split_first(), ys.split_first()) {
            (None, None) => true,
            (Some((x, xs)), Some((y, ys))) => self.same(*x, *y) && self.same_all(xs, ys),
            _ => false,
        }
    }

    /// A term of this store with the tree that a term has in another store.
    #[cycle(copy)]
    #[tactic(auto, using(clp_model::proofs::Trees::size_app, clp_model::proofs::Trees::depth_app))]
    pub fn copy(&mut self, from: &Store, t: Term) -> Result<Term, NoMemory>
        requires { t < length from.now }
        ensures keeps { Keeps self.old self.new }
        ensures made { IfOk result (λ c. HasTree self.new c (tree_at from.now t)) }
    {
        match from.look(t) {
            Look::Var(number, sort) => self.var(number, sort),
            Look::App(name, args) => {
                let copies = self.copies(from, args)?;
                self.add(name, copies.as_slice(), from.size(t), from.depth(t))
            }
        }
    }

    #[cycle(copy)]
    fn copies(&mut self, from: &Store, args: &[Term]) -> Result<SmallVec<Term, INLINE>, NoMemory>
        requires { AreIn from.now args.now }
        ensures keeps { Keeps self.old self.new }
        ensures made { IfOk result (λ copies. HaveTrees self.new copies.items (trees_at from.now args.now)) }
    {
        let mut copies = SmallVec::new(self.alloc);
        for arg in args {
            let copy = self.copy(from, *arg)?;
            copies.push(copy)?;
        }
        Ok(copies)
    }

    /// The same of several terms, in order.
    pub fn copy_all(&mut self, from: &Store, args: &[Term]) -> Result<Items<Term>, NoMemory>
        requires { AreIn from.now args.now }
        ensures keeps { Keeps self.old self.new }
        ensures made { IfOk result (λ copies. HaveTrees self.new copies (trees_at from.now args.now)) }
    {
        let copies = self.copies(from, args)?;
        Ok(Items::from_slice(self.alloc, copies.as_slice())?)
    }
}
