//! Substitutions.

ghost use Rattle.std.specs.Prelude.{◌≡◌, IfOk};
ghost use Rattle.clp_model.specs.declared.tree.Variable.{Variable};
ghost use Rattle.unify_model.specs.Substituting.{image};
ghost use Rattle.unify_model.specs.Matching.{image_at_once};
ghost use Rattle.unify_laws.proofs.Triangular.{AreTriangular};
ghost use Rattle.substitution.specs.Bindings.{bound, AreBound};
ghost use Rattle.substitution.specs.Weights.{IsOf, images};

use crate::bindings::Bindings;
use crate::images::{Images, Kind};
use crate::weighing::{Weight, weigh};
use std::alloc::Global;
use std::collections::HashMap;
use term_store::{NoMemory, Store};

/// A substitution of variables by terms of one store. It knows the size and the depth of each image.
#[derive(Drop)]
pub struct Subst {
    pub(crate) alloc: Global,
    pub(crate) images: Images,
    /// By the places of the bindings, the weights of the images; `None` past the limits of a term.
    pub(crate) weights: Vec<Option<Weight>>,
}

impl Subst {
    /// The substitution that carries out bindings one after another, the latest first: the image of a variable is the
    /// term of its last binding, with the images of the variables that were bound before it. Each size and depth is found
    /// once, from the first binding to the last.
    #[tactic(auto, using(crate::proofs::Carried::term_within, crate::proofs::Carried::height_at_place))]
    pub fn in_turn(alloc: Global, store: &Store, bindings: Bindings) -> Result<Subst, NoMemory>
        requires terms { AreBound store.now bindings }
        requires order { AreTriangular (λ v. Unit {0}) (bound store.now bindings) }
        ensures of { IfOk result (λ s. IsOf store.now s) }
        ensures images { IfOk result (λ s. (v : Variable) → images store.now s v ≡ image (bound store.now bindings) v) }
    {
        let images = Images {
            kind: Kind::InTurn,
            bindings,
        };
        let mut noted = HashMap::new(alloc);
        let mut weights = Vec::new(alloc);
        for place in 0..images.bindings.len() {
            let term = images.bindings.at(place).term;
            let weight = weigh(store, &images, weights.as_slice(), &mut noted, term)?;
            weights.push(weight)?;
        }
        Ok(Subst {
            alloc,
            images,
            weights,
        })
    }

    /// The substitution that puts in the terms of bindings at once: the image of a variable is the term of its last
    /// binding, whose variables stay.
    #[tactic(auto, using(crate::proofs::Carried::term_within))]
    pub fn at_once(alloc: Global, store: &Store, bindings: Bindings) -> Result<Subst, NoMemory>
        requires { AreBound store.now bindings }
        ensures of { IfOk result (λ s. IsOf store.now s) }
        ensures images { IfOk result (λ s. (v : Variable) → images store.now s v ≡ image_at_once (bound store.now bindings) v) }
    {
        let images = Images {
            kind: Kind::AtOnce,
            bindings,
        };
        let mut weights = Vec::new(alloc);
        for place in 0..images.bindings.len() {
            let term = images.bindings.at(place).term;
            weights.push(Some(Weight {
                size: store.size(term),
                depth: store.depth(term),
            }))?;
        }
        Ok(Subst {
            alloc,
            images,
            weights,
        })
    }
}
