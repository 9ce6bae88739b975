ghost use Rattle.std.specs.Prelude.{◌≡◌, ◌≤◌, ◌*◌, ◌+◌, ◌*ℤ◌, ◌+ℤ◌, true, length, unsigned_abs};
ghost use Rattle.linear_model.specs.Forms as forms;
ghost use Rattle.linear_model.specs.Forms.{IsRising};
ghost use Rattle.linear_model.specs.Normal.{limit};
ghost use Rattle.linear_model.specs.Chain.{multiplier_limit, weights_within};
ghost use Rattle.linear_model.specs.Certificates as spec;

use lin_row::Row;

/// The product, which needs at most 126 bits and a sign.
pub fn product(a: i64, b: i64) -> i128
    ensures { result ≡ a *ℤ b }
{
    a as i128 * b as i128
}

/// The coefficient of the variable, 0 where it has none.
pub fn coefficient(pairs: &[(u32, i64)], variable: u32) -> i64
    requires rising { IsRising pairs.now }
    ensures value { result ≡ forms.coefficient pairs.now variable }
{
    for p in pairs {
        if p.0 == variable {
            return p.1;
        }
        if p.0 > variable {
            return 0;
        }
    }
    0
}

/// A multiplier times a number, added to a sum of at most 128 such products.
#[tactic(auto, using(crate::proofs::Products::next_fits, crate::proofs::Products::next_small))]
fn add_product(sum: i128, number: i64, multiplier: i64) -> i128
    requires sum_small { unsigned_abs sum ≤ 128 * (limit * multiplier_limit) }
    requires number_small { unsigned_abs number ≤ limit }
    requires multiplier_small { unsigned_abs multiplier ≤ multiplier_limit }
    ensures value { result ≡ sum +ℤ multiplier *ℤ number }
    ensures bound { unsigned_abs result ≤ unsigned_abs sum + limit * multiplier_limit }
{
    sum + product(multiplier, number)
}

/// The coefficient of the variable in a row.
fn row_coefficient(row: &Row, variable: u32) -> i64
    ensures value { result ≡ forms.coefficient row.now.pairs variable }
    ensures small { unsigned_abs result ≤ limit }
{
    coefficient(row.pairs(), variable)
}

/// The coefficient of the variable in the sum of the multipliers times the rows.
pub fn weighted_coefficient(rows: &[Row], multipliers: &[i64], variable: u32) -> i128
    requires lengths { length multipliers.now ≡ length rows.now }
    requires few { length rows.now ≤ 128 }
    requires within { weights_within multipliers.now ≡ true }
    ensures value { result ≡ spec.weighted_coefficient rows.now multipliers.now variable }
{
    let mut sum = 0;
    for i in 0..rows.len() {
        sum = add_product(sum, row_coefficient(&rows[i], variable), multipliers[i]);
    }
    sum
}

/// The constant of the sum of the multipliers times the rows.
pub fn weighted_constant(rows: &[Row], multipliers: &[i64]) -> i128
    requires lengths { length multipliers.now ≡ length rows.now }
    requires few { length rows.now ≤ 128 }
    requires within { weights_within multipliers.now ≡ true }
    ensures value { result ≡ spec.weighted_constant rows.now multipliers.now }
{
    let mut sum = 0;
    for i in 0..rows.len() {
        sum = add_product(sum, rows[i].constant(), multipliers[i]);
    }
    sum
}
