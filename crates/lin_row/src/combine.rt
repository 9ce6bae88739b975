ghost use Rattle.std.specs.Prelude.{◌≡◌, ◌*ℤ◌, ◌+ℤ◌, ◌≤◌, unsigned_abs};
ghost use Rattle.linear_model.specs.Normal.{limit};

/// The product, which needs at most 126 bits and a sign.
fn product(a: i64, x: i64) -> i128
    ensures { result ≡ a *ℤ x }
{
    a as i128 * x as i128
}

/// The sum of two products, which never overflows where all four magnitudes are below 2^63.
#[tactic(auto, using(crate::proofs::Wide::sum_fits, crate::proofs::Wide::sum_exact))]
pub(crate) fn product_sum(a: i64, x: i64, b: i64, y: i64) -> i128
    requires a_small { unsigned_abs a ≤ limit }
    requires x_small { unsigned_abs x ≤ limit }
    requires b_small { unsigned_abs b ≤ limit }
    requires y_small { unsigned_abs y ≤ limit }
    ensures { result ≡ a *ℤ x +ℤ b *ℤ y }
{
    product(a, x) + product(b, y)
}

/// a times the pair.
pub(crate) fn times(a: i64, p: &(u32, i64)) -> (u32, i128)
    ensures value { result ≡ (p.now.0, a *ℤ p.now.1) }
{
    (p.0, product(a, p.1))
}

/// a times the first pair and b times the second, which has the same variable.
pub(crate) fn times_both(a: i64, p: &(u32, i64), b: i64, q: &(u32, i64)) -> (u32, i128)
    requires a_small { unsigned_abs a ≤ limit }
    requires p_small { unsigned_abs p.now.1 ≤ limit }
    requires b_small { unsigned_abs b ≤ limit }
    requires q_small { unsigned_abs q.now.1 ≤ limit }
    ensures value { result ≡ (p.now.0, a *ℤ p.now.1 +ℤ b *ℤ q.now.1) }
{
    (p.0, product_sum(a, p.1, b, q.1))
}
