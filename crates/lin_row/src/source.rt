ghost use Rattle.std.specs.Prelude.{◌≡◌, ◌<◌, ◌≤◌, ◌+◌, ◌-◌, ℕ, ℤ, List, [], All, IfSome, IfNone, drop, length, unsigned_abs};
ghost use Rattle.linear_model.specs.Forms.{with_pair, combined};
ghost use Rattle.linear_model.specs.Normal.{limit};
ghost use Rattle.lin_row.specs.Rows.{nonzero};

use crate::combine::{times, times_both};

/// A pair of a source, whose coefficient may be 0, and the place after it.
#[derive(Clone, Copy)]
pub(crate) struct Sum {
    pub(crate) pair: (u32, i128),
    pub(crate) i: usize,
    pub(crate) j: usize,
}

/// Pairs by rising variables that are computed one by one, and not kept. A place in them is two indices.
pub(crate) trait Source {
    // The pairs from a place on, without those whose coefficient is 0.
    ghost rest: { Self → ℕ → ℕ → List (ℕ × ℤ) };

    // No fewer than the steps from a place on.
    ghost steps: { Self → ℕ → ℕ → ℕ };

    /// The pair at the place, if one is left.
    fn at(&self, i: usize, j: usize) -> Option<Sum>
        ensures some { IfSome result (λ s. rest self.now i j ≡ with_pair s.pair.0 s.pair.1 (rest self.now s.i s.j)) }
        ensures fewer { IfSome result (λ s. steps self.now s.i s.j < steps self.now i j) }
        ensures none { IfNone result (rest self.now i j ≡ []) };
}

/// Pairs that are given.
#[derive(Clone, Copy)]
pub(crate) struct Given<'a> {
    pub(crate) pairs: &'a [(u32, i128)],
}

impl<'a> Source for Given<'a> {
    ghost rest = { λ s i j. nonzero (drop i s.pairs.now) };

    ghost steps = { λ s i j. length s.pairs.now - i };

    fn at(&self, i: usize, j: usize) -> Option<Sum> {
        match self.pairs.get(i) {
            Some(pair) => Some(Sum {
                pair: *pair,
                i: i + 1,
                j,
            }),
            None => None,
        }
    }
}

/// The pairs of a times one list and b times another, both by rising variables.
#[derive(Clone, Copy)]
pub(crate) struct Sums<'a> {
    pub(crate) a: i64,
    pub(crate) first: &'a [(u32, i64)],
    pub(crate) b: i64,
    pub(crate) second: &'a [(u32, i64)],
    pub(crate) ghost a_small: { unsigned_abs a ≤ limit },
    pub(crate) ghost b_small: { unsigned_abs b ≤ limit },
    pub(crate) ghost first_small: { All (λ p. unsigned_abs p.1 ≤ limit) first.now },
    pub(crate) ghost second_small: { All (λ p. unsigned_abs p.1 ≤ limit) second.now },
}

impl<'a> Source for Sums<'a> {
    ghost rest = { λ s i j. combined s.a (drop i s.first.now) s.b (drop j s.second.now) };

    ghost steps = { λ s i j. length s.first.now - i + (length s.second.now - j) };

    fn at(&self, i: usize, j: usize) -> Option<Sum> {
        match (self.first.get(i), self.second.get(j)) {
            (Some(p), Some(q)) => {
                if p.0 < q.0 {
                    Some(Sum {
                        pair: times(self.a, p),
                        i: i + 1,
                        j,
                    })
                } else if q.0 < p.0 {
                    Some(Sum {
                        pair: times(self.b, q),
                        i,
                        j: j + 1,
                    })
                } else {
                    Some(Sum {
                        pair: times_both(self.a, p, self.b, q),
                        i: i + 1,
                        j: j + 1,
                    })
                }
            }
            (Some(p), None) => Some(Sum {
                pair: times(self.a, p),
                i: i + 1,
                j,
            }),
            (None, Some(q)) => Some(Sum {
                pair: times(self.b, q),
                i,
                j: j + 1,
            }),
            (None, None) => None,
        }
    }
}
