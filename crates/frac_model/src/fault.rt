/// Why a computation with fractions has no result.
#[derive(Clone, Copy, Debug, PartialEq, Eq)]
pub enum FracFault {
    /// The numerator or the denominator of the result in lowest terms is above 9,223,372,036,854,775,807.
    TooLarge,
    /// A division by 0.
    ZeroDivisor,
}
