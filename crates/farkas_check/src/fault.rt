/// Why a certificate is wrong. The first in this order is told.
#[derive(Clone, Copy, Debug, PartialEq, Eq)]
pub enum CheckFault {
    /// One part for an equation, two parts for an inequality, or a multiplier of the target where the rows are to
    /// be shown false.
    Form,
    /// Not one multiplier for each row.
    Count,
    /// A multiplier below 0 for the target or for an inequality.
    Negative,
    /// A variable is left in the weighted sum.
    NotConstant,
    /// The constant that is left is below 0, or it is 0 where it has to be above.
    WrongSign,
}
