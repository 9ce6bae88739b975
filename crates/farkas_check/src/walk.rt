ghost use Rattle.std.specs.Prelude.{◌≡◌};
ghost use Rattle.farkas_check.specs.Walk as spec;

use lin_row::Row;

/// The variable, where it is not below `from` and less than what was found; else what was found.
fn nearer(from: u64, variable: u32, found: Option<u32>) -> Option<u32>
    ensures { result ≡ spec.nearer from variable found }
{
    let precedes = match found {
        Some(other) => variable < other,
        None => true,
    };
    if from <= variable as u64 && precedes {
        Some(variable)
    } else {
        found
    }
}

/// The least variable of the pairs that is not below `from`, or what was found where that is less.
fn least_from(from: u64, pairs: &[(u32, i64)], found: Option<u32>) -> Option<u32>
    ensures { result ≡ spec.least_from from pairs.now found }
{
    let mut least = found;
    for p in pairs {
        least = nearer(from, p.0, least);
    }
    least
}

/// The least variable of the rows and the pairs that is not below `from`.
pub fn next_variable(from: u64, rows: &[Row], pairs: &[(u32, i64)]) -> Option<u32>
    ensures { result ≡ spec.next_variable from rows.now pairs.now }
{
    let mut least = least_from(from, pairs, None);
    for row in rows {
        least = least_from(from, row.pairs(), least);
    }
    least
}
