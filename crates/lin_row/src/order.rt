ghost use Rattle.std.specs.Prelude.{◌≡◌, ◌↔◌, true, refl, IsTrue};
ghost use Rattle.std.specs.Cmp.{partial_equiv_from_equiv};
ghost use Rattle.std.specs.Ordering.{as_partial_cmp, int_cmp, int_eq};
ghost use Rattle.std.specs.Cmp.Lexicographic.{slice_cmp};
ghost use Rattle.linear_model.specs.Normal.{rel_eq, pairs_eq, row_eq};
ghost use Rattle.lin_row.specs.Order as spec;
ghost use Rattle.lin_row.specs.Order.{pair_cmp, row_cmp, row_fed};
ghost use Rattle.lin_row.specs.OrderLaws.{row_equivalence, row_alike, row_total, row_tied, row_partial_order};

use crate::row::Row;
use clp_model::Rel;
use std::cmp::Ordering;
use std::hash::{Hash, Hasher};

/// The place of a relation among the three.
fn rank(rel: Rel) -> u8
    ensures { result ≡ spec.rank rel }
{
    match rel {
        Rel::Eq => 0,
        Rel::Le => 1,
        Rel::Lt => 2,
    }
}

/// Whether the relations are equal.
fn same_rel(a: Rel, b: Rel) -> bool
    ensures { result ≡ rel_eq a b }
{
    matches!(
        (a, b),
        (Rel::Eq, Rel::Eq) | (Rel::Le, Rel::Le) | (Rel::Lt, Rel::Lt)
    )
}

/// Whether the pairs are equal, place by place.
#[tactic(auto, using(crate::specs::OrderLaws::pairs_pointwise))]
fn same_pairs(a: &[(u32, i64)], b: &[(u32, i64)]) -> bool
    ensures { result ≡ pairs_eq a.now b.now }
{
    *a == *b
}

/// Whether the numbers are equal.
fn same(a: i64, b: i64) -> bool
    ensures { result ≡ int_eq a b }
{
    a == b
}

/// The order of lists of pairs, by the first pair that differs.
fn pairs_order(a: &[(u32, i64)], b: &[(u32, i64)]) -> Ordering
    ensures { result ≡ slice_cmp pair_cmp a.now b.now }
{
    a.cmp(b)
}

/// The order of numbers.
fn order(a: i64, b: i64) -> Ordering
    ensures { result ≡ int_cmp a b }
{
    a.cmp(&b)
}

/// Rows are equal exactly where all three parts are.
impl PartialEq for Row {
    ghost eq = { row_eq };

    ghost laws = { partial_equiv_from_equiv row_equivalence };

    #[tactic(auto, using(crate::specs::OrderLaws::rows_are, crate::specs::OrderLaws::row_same_as))]
    fn eq(&self, other: &Row) -> bool
        ensures value { result ≡ row_eq self.now other.now }
        ensures equal { result ≡ true → self.now ≡ other.now }
        ensures found { self.now ≡ other.now → result ≡ true }
    {
        if !same_rel(self.rel, other.rel) {
            return false;
        }
        if !same(self.constant, other.constant) {
            return false;
        }
        same_pairs(self.pairs.as_slice(), other.pairs.as_slice())
    }
}

impl Eq for Row {
    ghost laws = { row_equivalence };
}

impl PartialOrd for Row {
    ghost partial_cmp = { as_partial_cmp row_cmp };

    ghost laws = { row_partial_order };

    fn partial_cmp(&self, other: &Row) -> Option<Ordering> {
        Some(self.cmp(other))
    }
}

/// Rows are ordered by their pairs, then by their constants, then by their relations: equations first, strict
/// inequalities last.
impl Ord for Row {
    ghost cmp = { row_cmp };

    ghost total = { row_total };

    ghost matches_partial_cmp = { λ r s. refl };

    ghost matches_eq = { row_tied };

    fn cmp(&self, other: &Row) -> Ordering {
        pairs_order(self.pairs.as_slice(), other.pairs.as_slice())
            .then(order(self.constant, other.constant))
            .then(rank(self.rel).cmp(&rank(other.rel)))
    }
}

impl Hash for Row {
    ghost hash_input = { row_fed };

    ghost respects_eq = { row_alike };

    fn hash<H: Hasher>(&self, state: &mut H) {
        self.pairs.as_slice().hash(state);
        self.constant.hash(state);
        rank(self.rel).hash(state);
    }
}
