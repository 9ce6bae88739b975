//! Laws of linear forms: that sums, differences, products, quotients and rows of forms mean what they are to mean.
//! There is no code here: each law is the contract of an empty function, and the lemmas in `proofs/` are there for
//! the crates above.
#![tactic(auto)]

ghost use Rattle.form_laws.specs.Laws.{WholeIsExact, VariableIsExact, ConstantIsExact, SumIsExact, DifferenceIsExact, ProductIsExact, QuotientIsExact, RowIsExact};

/// A number has its own value.
pub fn whole_is_exact()
    ensures { WholeIsExact }
{}

/// A variable has its own value.
pub fn variable_is_exact()
    ensures { VariableIsExact }
{}

/// A form in which no variable counts has the value of its constant.
pub fn constant_is_exact()
    ensures { ConstantIsExact }
{}

/// A sum has the sum of the values.
pub fn sum_is_exact()
    ensures { SumIsExact }
{}

/// A difference has the difference of the values.
pub fn difference_is_exact()
    ensures { DifferenceIsExact }
{}

/// A product has the product of the values.
pub fn product_is_exact()
    ensures { ProductIsExact }
{}

/// A quotient has the quotient of the values.
pub fn quotient_is_exact()
    ensures { QuotientIsExact }
{}

/// The row of a form holds exactly where the value of the form compares so with 0.
pub fn row_is_exact()
    ensures { RowIsExact }
{}
