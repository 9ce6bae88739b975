/// What a token is, or why there is none.
#[derive(Clone, Copy, Debug, PartialEq, Eq)]
pub enum Lexeme {
    /// A lower-case ASCII letter, then ASCII letters, digits and `_`.
    Name,
    /// Any characters between single quotes.
    Quoted,
    /// An upper-case ASCII letter or `_`, then ASCII letters, digits and `_`.
    Variable,
    /// ASCII digits.
    Number,
    /// `(`
    OpenRound,
    /// `)`
    CloseRound,
    /// `[`
    OpenSquare,
    /// `]`
    CloseSquare,
    /// `{`
    OpenCurly,
    /// `}`
    CloseCurly,
    /// `,`
    Comma,
    /// `|`
    Bar,
    /// `:-`
    If,
    /// `=`
    Equal,
    /// `=:=`
    NumberEqual,
    /// `=<`
    AtMost,
    /// `<`
    Less,
    /// `>=`
    AtLeast,
    /// `>`
    Greater,
    /// `+`
    Plus,
    /// `-`
    Minus,
    /// `*`
    Times,
    /// `/`
    Over,
    /// `.` before white, `%` or the end of the text.
    End,
    /// A token of the language that MAP leaves out.
    Unsupported,
    /// The end of the text.
    Finish,
    /// A name or a variable of more than 255 bytes, a quoted name after its escapes.
    NameTooLong,
    /// A number above 9,223,372,036,854,775,807.
    NumberTooLarge,
    /// What begins no token, an unclosed comment or quoted name, or a number directly before a letter, `_` or a quote.
    Bad,
}

/// What it is, and its length in bytes.
#[derive(Clone, Copy, Debug, PartialEq, Eq)]
pub struct Token {
    pub lexeme: Lexeme,
    pub len: usize,
}
