/// Why an expression has no linear form, or a form no row.
#[derive(Clone, Copy, Debug, PartialEq, Eq)]
pub enum FormFault {
    /// A product of two forms that have variables, or a division by one.
    NotLinear,
    /// A division by 0.
    ZeroDivisor,
    /// A numerator or denominator of the form, or a number of the row, is above 9,223,372,036,854,775,807 in magnitude.
    TooLarge,
}
