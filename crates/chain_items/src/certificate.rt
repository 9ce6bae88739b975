ghost use Rattle.std.specs.Prelude.{◌≡◌, ◌++◌, ◌∷◌, [], map, true, pos, IfOk, OnOk, Bool, false};
ghost use Rattle.linear_model.specs.Forms.{IsRising, coefficient};
ghost use Rattle.linear_model.specs.Chain.{multiplier_limit};
ghost use Rattle.chain_items.specs.Sparse.{spread, at_most, sign};

use crate::item::coefficient_in;
use crate::key::signed;
use std::alloc::{AllocError, Global};

/// One more multiplier.
fn push_multiplier(
    into: &mut Vec<i64>,
    weights: &[(u32, i64)],
    place: u32,
    is_opposite: bool,
) -> Result<(), AllocError>
    requires rising { IsRising weights.now }
    requires small { at_most multiplier_limit weights.now ≡ true }
    ensures { OnOk result (into.new.items ≡ into.old.items ++ sign is_opposite (coefficient weights.now place) ∷ []) }
{
    into.push(signed(is_opposite, coefficient_in(weights, place)))?;
    Ok(())
}

/// All multipliers of these that are not 0, or their opposites.
pub fn multipliers(
    alloc: Global,
    count: u32,
    weights: &[(u32, i64)],
    is_opposite: bool,
) -> Result<Vec<i64>, AllocError>
    requires rising { IsRising weights.now }
    requires small { at_most multiplier_limit weights.now ≡ true }
    ensures { IfOk result (λ v. v.items ≡ map (sign is_opposite) (spread 0 count weights.now)) }
{
    let mut all = Vec::new(alloc);
    for place in 0..count {
        push_multiplier(&mut all, weights, place, is_opposite)?;
    }
    Ok(all)
}
