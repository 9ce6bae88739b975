/// What kind of token it is.
#[derive(Clone, Copy, Debug, PartialEq, Eq)]
pub enum TokenKind {
    /// A lower-case ASCII letter, then ASCII letters, digits and `_`.
    Name,
    /// Any characters between single quotes.
    Quoted,
    /// An upper-case ASCII letter or `_`, then ASCII letters, digits and `_`.
    Variable,
    /// ASCII digits.
    Number,
    /// A bracket, a comma, a bar, `:-`, a relation or an operator.
    Mark,
    /// `.` before white, `%` or the end of the text.
    End,
    /// A token of the language that MAP leaves out.
    Unsupported,
    /// The end of the text.
    Finish,
}

/// A token, the place of its first byte, and the place after its last one.
#[derive(Clone, Copy, Debug, PartialEq, Eq)]
pub struct Token {
    pub from: u32,
    pub to: u32,
    pub kind: TokenKind,
}
