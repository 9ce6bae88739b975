//! Rationals as fractions in lowest terms, for the meaning of numbers: each whole number over a positive
//! one is exactly one such fraction. There is no code here: each law below is the contract of an empty function.
#![tactic(auto)]

ghost use Rattle.std.specs.Prelude.{ℕ, ℤ, ◌<◌, ◌≡◌};
ghost use Rattle.clp_rationals.specs.Fraction.{Fraction, IsLowest, IsOver};

/// Each whole number over a positive one is a fraction in lowest terms.
pub fn each_rational_has_lowest_terms()
    ensures { (v : ℤ) (d : ℕ) → 0 < d → (f : Fraction) × IsLowest f × IsOver v d f }
{}

/// And only one.
pub fn lowest_terms_are_unique()
    ensures { (v : ℤ) (d : ℕ) → 0 < d → (f g : Fraction) → IsLowest f → IsLowest g → IsOver v d f → IsOver v d g → f ≡ g }
{}
