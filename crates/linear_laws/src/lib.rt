//! Laws of linear rows: that the normal form, a change of variables, negation, elimination and certificates mean
//! what they are to mean. There is no code here: each law is the contract of an empty function, and the lemmas in
//! `proofs/` are there for the crates above.
#![tactic(auto)]

ghost use Rattle.std.specs.Prelude.{ℕ, List, ◌↔◌, ◌≡◌};
ghost use Rattle.clp_model.specs.Values.{Valuation};
ghost use Rattle.clp_model.specs.Clauses.{Row, RowHolds};
ghost use Rattle.clp_model.specs.declared.sort.Rel.TheVariants.{Eq};
ghost use Rattle.linear_model.specs.Forms.{IsRising};
ghost use Rattle.linear_model.specs.Normal.{normal, IsNormal, is_within};
ghost use Rattle.linear_model.specs.Changes.{renamed, negated, flipped, at_most};
ghost use Rattle.linear_model.specs.Certificates.{Entails, Unsatisfiable, Part, Shows, ShowsFalse};
ghost use Rattle.linear_laws.specs.Laws.{carried, EquationIsTwoHalves, EliminationIsExact, VariableIsGone, NoVariableComes, EliminationRises, EquationIsEntailed};

/// The normal form of a row has the same solutions and is its own normal form, and variables that rise still rise.
pub fn normal_form_stands_for_the_row()
    ensures same { (u : Valuation) (r : Row) → RowHolds u (normal r) ↔ RowHolds u r }
    ensures stays { (r : Row) → normal (normal r) ≡ normal r }
    ensures is_normal { (r : Row) → IsRising r.pairs → IsNormal (normal r) }
{}

/// A renamed row holds exactly where the row holds under the valuation carried along, also where the new names make
/// variables one; and its variables rise, whatever the names.
pub fn renaming_carries_the_valuation()
    ensures holds { (f : ℕ → ℕ) (u : Valuation) (r : Row) → RowHolds u (renamed f r) ↔ RowHolds (carried f u) r }
    ensures rising { (f : ℕ → ℕ) (r : Row) → IsRising (renamed f r).pairs }
{}

/// The negation of an inequality holds exactly where the inequality does not, and is in normal form and within the
/// limits where the inequality is.
pub fn negation_is_the_complement()
    ensures holds { (u : Valuation) (r : Row) → ¬ (r.rel ≡ Eq) → RowHolds u (negated r) ↔ (¬ RowHolds u r) }
    ensures is_normal { (r : Row) → ¬ (r.rel ≡ Eq) → IsNormal r → IsNormal (negated r) }
    ensures within { (r : Row) → is_within (negated r) ≡ is_within r }
{}

/// The row of the opposite sum: of an equation it has the same solutions, and it is the equation's other half.
pub fn opposite_sum_gives_the_other_half()
    ensures same { (u : Valuation) (r : Row) → r.rel ≡ Eq → RowHolds u (flipped r) ↔ RowHolds u r }
    ensures halves { EquationIsTwoHalves }
    ensures is_normal { (r : Row) → ¬ (r.rel ≡ Eq) → IsNormal r → IsNormal (flipped r) }
    ensures half_is_normal { (r : Row) → IsNormal r → IsNormal (at_most r) }
    ensures other_half_is_normal { (r : Row) → IsNormal r → IsNormal (at_most (flipped r)) }
    ensures within { (r : Row) → is_within (flipped r) ≡ is_within r }
{}

/// Elimination of a variable is exact, as by Gauss and by Fourier and Motzkin: strict rows, equations and rows that
/// bound the variable on one side or not at all included. The variable is gone, and no other comes.
pub fn elimination_is_exact()
    ensures exact { EliminationIsExact }
    ensures gone { VariableIsGone }
    ensures none_comes { NoVariableComes }
    ensures rising { EliminationRises }
{}

/// What a certificate shows is so, as by Farkas' lemma: an inequality, an equation by its two halves, and that the
/// rows have no common solution.
pub fn what_is_shown_is_entailed()
    ensures inequality { (rows : List Row) (target : Row) (part : Part) → ¬ (target.rel ≡ Eq) → Shows rows target part → Entails rows target }
    ensures equation { EquationIsEntailed }
    ensures falsehood { (rows : List Row) (part : Part) → ShowsFalse rows part → Unsatisfiable rows }
{}
