//! The size and the depth of a term in which each variable has its image, without making it.

ghost use Rattle.std.specs.Prelude.{◌≡◌, ◌<◌, ◌≤◌, ◌+◌, max, ℕ, List, length, Some, IfOk, IfSome, OnOk};
ghost use Rattle.clp_model.specs.declared.tree.Variable.{Variable};
ghost use Rattle.clp_model.specs.declared.tree.Tree.{Tree, App};
ghost use Rattle.clp_model.specs.Trees.{size, depth, variables_in};
ghost use Rattle.term_store.specs.Trees.{tree_at, trees_at, AreIn};
ghost use Rattle.unify_model.specs.Substituting.{substituted, substituted_all};
ghost use Rattle.substitution.specs.Bindings.{variable_of, bound_variables, height_of, height, greatest_height};
ghost use Rattle.substitution.specs.Images.{images_of};
ghost use Rattle.substitution.specs.Weights.{AreMeasures, HasMeasures, Weighs, WeighAll, HaveWeights, AreNoted};

use crate::images::Images;
use clp_model::Sort;
use std::collections::HashMap;
use term_store::{Look, NoMemory, Store, Term};

const MAX_SIZE: u32 = 4096;

const MAX_DEPTH: u32 = 256;

/// The size and the depth of a term within the limits.
#[derive(Clone, Copy)]
pub(crate) struct Weight {
    pub size: u32,
    pub depth: u32,
}

/// The weight of terms with one more beside them.
#[tactic(auto, using(crate::proofs::Weighed::beside_none, crate::proofs::Weighed::beside_large, crate::proofs::Weighed::beside_is))]
fn beside(all: Weight, one: Option<Weight>) -> Option<Weight>
    requires all { all.size ≤ 4096 }
    requires one { IfSome one (λ w. w.size ≤ 4096) }
    ensures { (nodes levels : ℕ) (t : Tree Variable) → AreMeasures all nodes levels → Weighs one t → HasMeasures result (nodes + size t) (max levels (depth t)) }
{
    let Some(one) = one else {
        return None;
    };
    if all.size + one.size > MAX_SIZE {
        return None;
    }
    Some(Weight {
        size: all.size + one.size,
        depth: all.depth.max(one.depth),
    })
}

/// The weight of an application to arguments of this weight.
#[tactic(auto, using(crate::proofs::Weighed::above_none, crate::proofs::Weighed::above_large, crate::proofs::Weighed::above_deep, crate::proofs::Weighed::above_is))]
fn above(args: Option<Weight>) -> Option<Weight>
    requires { IfSome args (λ w. w.size ≤ 4096) }
    ensures { (name : List ℕ) (ts : List (Tree Variable)) → WeighAll args ts → Weighs result (App name ts) }
{
    let Some(args) = args else {
        return None;
    };
    if args.size >= MAX_SIZE {
        return None;
    }
    if args.depth >= MAX_DEPTH {
        return None;
    }
    Some(Weight {
        size: args.size + 1,
        depth: args.depth + 1,
    })
}

/// The weight of a variable's image.
fn weigh_variable(
    images: &Images,
    weights: &[Option<Weight>],
    number: u32,
    sort: Sort,
) -> Option<Weight>
    requires { height_of (bound_variables images.now.bindings) (variable_of number sort) ≤ length weights.now }
    ensures { (store : List (Tree Variable)) → HaveWeights (images_of store images.now) (bound_variables images.now.bindings) weights.now
        → Weighs result (images_of store images.now (variable_of number sort)) }
{
    match images.bindings.find(number, sort) {
        None => Some(Weight { size: 1, depth: 1 }),
        Some(place) => weights[place],
    }
}

/// The weight of a term in which each variable has its image, or `None` where it is past a limit. What was found of
/// applications is noted.
#[cycle(weigh)]
#[tactic(auto, using(clp_model::proofs::Trees::size_app, crate::proofs::Weighed::sub_var, crate::proofs::Weighed::sub_app, crate::proofs::Weighed::var_height, crate::proofs::Weighed::app_height))]
pub(crate) fn weigh(
    store: &Store,
    images: &Images,
    weights: &[Option<Weight>],
    noted: &mut HashMap<Term, Option<Weight>>,
    t: Term,
) -> Result<Option<Weight>, NoMemory>
    requires within { t < length store.now }
    requires weights { HaveWeights (images_of store.now images.now) (bound_variables images.now.bindings) weights.now }
    requires known { height (bound_variables images.now.bindings) (tree_at store.now t) ≤ length weights.now }
    requires noted { AreNoted store.now (images_of store.now images.now) noted.old }
    ensures weight { IfOk result (λ w. Weighs w (substituted (images_of store.now images.now) (tree_at store.now t))) }
    ensures noted { OnOk result (AreNoted store.now (images_of store.now images.now) noted.new) }
{
    match store.look(t) {
        Look::Var(number, sort) => Ok(weigh_variable(images, weights, number, sort)),
        Look::App(_, args) => {
            if let Some(weight) = noted.get(&t) {
                return Ok(*weight);
            }
            let weight = above(weigh_all(store, images, weights, noted, args)?);
            noted.insert(t, weight)?;
            Ok(weight)
        }
    }
}

/// The weight of several terms together.
#[cycle(weigh)]
#[tactic(auto, using(crate::proofs::Weighed::item_in, crate::proofs::Weighed::item_height, crate::proofs::Weighed::item_size))]
fn weigh_all(
    store: &Store,
    images: &Images,
    weights: &[Option<Weight>],
    noted: &mut HashMap<Term, Option<Weight>>,
    terms: &[Term],
) -> Result<Option<Weight>, NoMemory>
    requires within { AreIn store.now terms.now }
    requires weights { HaveWeights (images_of store.now images.now) (bound_variables images.now.bindings) weights.now }
    requires known { greatest_height (bound_variables images.now.bindings) (variables_in (trees_at store.now terms.now)) ≤ length weights.now }
    requires noted { AreNoted store.now (images_of store.now images.now) noted.old }
    ensures weight { IfOk result (λ w. WeighAll w (substituted_all (images_of store.now images.now) (trees_at store.now terms.now))) }
    ensures noted { OnOk result (AreNoted store.now (images_of store.now images.now) noted.new) }
{
    let mut all = Weight { size: 0, depth: 0 };
    for term in terms {
        let one = weigh(store, images, weights, noted, *term)?;
        let Some(more) = beside(all, one) else {
            return Ok(None);
        };
        all = more;
    }
    Ok(Some(all))
}
