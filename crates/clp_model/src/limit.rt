/// What is counted and may be past its limit.
#[derive(Clone, Copy, Debug, PartialEq, Eq)]
pub enum Limit {
    /// A clause of size above 4,096 or depth above 256.
    Shape,
    /// More than 64 body atoms.
    Atoms,
    /// More than 256 variables.
    Variables,
    /// More than 128 rows.
    Rows,
    /// More than 4,096 live clauses.
    Clauses,
    /// Clauses made in one run whose sizes are together above 8,388,608.
    Nodes,
    /// A state with 100,000 steps already.
    Steps,
    /// More than 1,024 rows in one list of an elimination chain.
    Chain,
}
