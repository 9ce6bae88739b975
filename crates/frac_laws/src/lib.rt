//! Laws of fractions in lowest terms: that each result stands for the result on the rationals, and the laws of
//! a field. There is no code here: each law is the contract of an empty function.
#![tactic(auto)]

ghost use Rattle.frac_laws.specs.Laws.{ReducedIsLowest, SumIsExact, DifferenceIsExact, ProductIsExact, SumCommutes, ProductCommutes, SumAssociates, ProductAssociates, ProductDistributes, DifferenceUndoesSum, QuotientUndoesProduct};

/// What is reduced is in lowest terms and stands for the same rational.
pub fn reduced_is_lowest()
    ensures { ReducedIsLowest }
{}

/// A sum stands for the sum of the rationals.
pub fn sum_is_exact()
    ensures { SumIsExact }
{}

/// A difference stands for the difference of the rationals.
pub fn difference_is_exact()
    ensures { DifferenceIsExact }
{}

/// A product stands for the product of the rationals.
pub fn product_is_exact()
    ensures { ProductIsExact }
{}

/// The order of a sum changes nothing.
pub fn sum_commutes()
    ensures { SumCommutes }
{}

/// The order of a product changes nothing.
pub fn product_commutes()
    ensures { ProductCommutes }
{}

/// The grouping of a sum changes nothing.
pub fn sum_associates()
    ensures { SumAssociates }
{}

/// The grouping of a product changes nothing.
pub fn product_associates()
    ensures { ProductAssociates }
{}

/// A product with a sum is the sum of the products.
pub fn product_distributes()
    ensures { ProductDistributes }
{}

/// A difference undoes a sum, and a sum the difference.
pub fn difference_undoes_sum()
    ensures { DifferenceUndoesSum }
{}

/// A quotient by what isn't 0 undoes a product, and a product the quotient.
pub fn quotient_undoes_product()
    ensures { QuotientUndoesProduct }
{}
