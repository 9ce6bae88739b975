/// What a token is in a directive. Brackets are counted alone: one of any kind closes the last that is open.
#[derive(Clone, Copy, Debug, PartialEq, Eq)]
pub enum Role {
    /// The end of the directive.
    Ends,
    /// An opening bracket.
    Opens,
    /// A closing bracket.
    Closes,
    /// Another token that may stand there.
    Stands,
    /// The end of the text, or no token.
    Fails,
}
