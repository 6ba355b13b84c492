/// What the grammar sees of a token.
#[derive(Clone, Copy, Debug, PartialEq, Eq)]
pub enum Class {
    /// The reserved word `private`.
    Private,
    /// The reserved word `free`.
    Free,
    /// The reserved word `fun`.
    Fun,
    /// The reserved word `data`.
    Data,
    /// The reserved word `reduc`.
    Reduc,
    /// The reserved word `event`.
    Event,
    /// The reserved word `query`.
    Query,
    /// The reserved word `attacker`.
    Attacker,
    /// The reserved word `process`.
    Process,
    /// The reserved word `new`.
    New,
    /// The reserved word `false`.
    False,
    /// The reserved word `let`.
    Let,
    /// The reserved word `in`.
    In,
    /// The reserved word `out`.
    Out,
    /// The reserved word `if`.
    If,
    /// The reserved word `then`.
    Then,
    /// The reserved word `else`.
    Else,
    /// The reserved word `phase`.
    Phase,
    /// The reserved word `table`.
    Table,
    /// The reserved word `insert`.
    Insert,
    /// The reserved word `get`.
    Get,
    /// The reserved word `suchthat`.
    Suchthat,
    /// The symbol `(`.
    Open,
    /// The symbol `)`.
    Close,
    /// The symbol `,`.
    Comma,
    /// The symbol `;`.
    Semicolon,
    /// The symbol `.`.
    Dot,
    /// The symbol `/`.
    Slash,
    /// The symbol `=`.
    Equals,
    /// The symbol `==>`.
    Implies,
    /// The symbol `|`.
    Bar,
    /// The symbol `||`.
    Or,
    /// The symbol `&&`.
    And,
    /// The symbol `!`.
    Bang,
    /// The symbol `->`.
    Arrow,
    /// An identifier.
    Name,
    /// The number that is spelled `0`.
    Zero,
    /// Any other number.
    Number,
    /// A text that is none of these; no token of a file has it.
    Other,
    /// The end of the file, which is no token.
    End,
}
