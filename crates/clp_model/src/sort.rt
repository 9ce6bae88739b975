/// What a variable stands for: any value, or a rational number.
#[derive(Clone, Copy, Debug, PartialEq, Eq, Hash)]
pub enum Sort {
    Any,
    Num,
}

/// How a row compares its sum with 0: equal, at most, or less.
#[derive(Clone, Copy, Debug, PartialEq, Eq, Hash)]
pub enum Rel {
    Eq,
    Le,
    Lt,
}
