ghost use Rattle.std.specs.Prelude.{◌≡◌, ◌*ℤ◌, ◌+ℤ◌, ◌+◌, ◌*◌, ◌<◌, ◌≤◌, [], All, IfSome, IfNone, length, drop, unsigned_abs};
ghost use Rattle.linear_model.specs.Forms as spec;
ghost use Rattle.linear_model.specs.Normal.{limit};

/// The product, which needs at most 126 bits and a sign.
fn product(a: i64, x: i64) -> i128
    ensures { result ≡ a *ℤ x }
{
    a as i128 * x as i128
}

/// The sum of two products, which never overflows where all four magnitudes are below 2^63.
#[tactic(auto, using(lin_row::proofs::Wide::sum_fits, lin_row::proofs::Wide::sum_exact))]
pub fn product_sum(a: i64, x: i64, b: i64, y: i64) -> i128
    requires a_small { unsigned_abs a ≤ limit }
    requires x_small { unsigned_abs x ≤ limit }
    requires b_small { unsigned_abs b ≤ limit }
    requires y_small { unsigned_abs y ≤ limit }
    ensures { result ≡ a *ℤ x +ℤ b *ℤ y }
{
    product(a, x) + product(b, y)
}

/// The next pair of a combination, and how far both lists are read then.
#[derive(Clone, Copy)]
pub struct Step {
    pub variable: u32,
    pub coefficient: i128,
    pub first: usize,
    pub second: usize,
}

fn first_step(a: i64, p: &(u32, i64), i: usize, j: usize) -> Step
    requires { i < usize.MAX }
    ensures { result ≡ record { variable = p.now.0; coefficient = a *ℤ p.now.1; first = i + 1; second = j } }
{
    Step {
        variable: p.0,
        coefficient: product(a, p.1),
        first: i + 1,
        second: j,
    }
}

fn second_step(b: i64, q: &(u32, i64), i: usize, j: usize) -> Step
    requires { j < usize.MAX }
    ensures { result ≡ record { variable = q.now.0; coefficient = b *ℤ q.now.1; first = i; second = j + 1 } }
{
    Step {
        variable: q.0,
        coefficient: product(b, q.1),
        first: i,
        second: j + 1,
    }
}

fn joint_step(a: i64, p: &(u32, i64), b: i64, q: &(u32, i64), i: usize, j: usize) -> Step
    requires a_small { unsigned_abs a ≤ limit }
    requires p_small { unsigned_abs p.now.1 ≤ limit }
    requires b_small { unsigned_abs b ≤ limit }
    requires q_small { unsigned_abs q.now.1 ≤ limit }
    requires first { i < usize.MAX }
    requires second { j < usize.MAX }
    ensures { result ≡ record { variable = p.now.0; coefficient = a *ℤ p.now.1 +ℤ b *ℤ q.now.1; first = i + 1; second = j + 1 } }
{
    Step {
        variable: p.0,
        coefficient: product_sum(a, p.1, b, q.1),
        first: i + 1,
        second: j + 1,
    }
}

/// The next pair of a times the first list and b times the second from these places on; its coefficient may be 0.
pub fn next_step(
    a: i64,
    first: &[(u32, i64)],
    i: usize,
    b: i64,
    second: &[(u32, i64)],
    j: usize,
) -> Option<Step>
    requires a_small { unsigned_abs a ≤ limit }
    requires b_small { unsigned_abs b ≤ limit }
    requires first_small { All (λ p. unsigned_abs p.1 ≤ limit) first.now }
    requires second_small { All (λ p. unsigned_abs p.1 ≤ limit) second.now }
    ensures some { IfSome result (λ s. spec.combined a (drop i first.now) b (drop j second.now)
        ≡ spec.with_pair s.variable s.coefficient (spec.combined a (drop s.first first.now) b (drop s.second second.now))) }
    ensures further { IfSome result (λ s. i + j < s.first + s.second) }
    ensures first_within { i ≤ length first.now → IfSome result (λ s. s.first ≤ length first.now) }
    ensures second_within { j ≤ length second.now → IfSome result (λ s. s.second ≤ length second.now) }
    ensures none { IfNone result (spec.combined a (drop i first.now) b (drop j second.now) ≡ []) }
{
    match (first.get(i), second.get(j)) {
        (Some(p), Some(q)) => {
            if p.0 < q.0 {
                Some(first_step(a, p, i, j))
            } else if q.0 < p.0 {
                Some(second_step(b, q, i, j))
            } else {
                Some(joint_step(a, p, b, q, i, j))
            }
        }
        (Some(p), None) => Some(first_step(a, p, i, j)),
        (None, Some(q)) => Some(second_step(b, q, i, j)),
        (None, None) => None,
    }
}
