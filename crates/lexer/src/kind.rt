// The kinds of token, and the record of one token.

// What a token is: a name, a constant, or the keyword or mark itself.
#[derive(Clone, Copy, PartialEq, Eq, Debug, Default)]
pub enum Kind {
    #[default]
    Name,
    Number,
    Character,
    // Keywords.
    Bool,
    Char,
    Int,
    Float,
    Void,
    Extern,
    Static,
    If,
    Else,
    While,
    Do,
    For,
    To,
    Break,
    Continue,
    Return,
    True,
    False,
    // Marks.
    Plus,
    Minus,
    Star,
    Slash,
    Percent,
    Assign,
    Equal,
    NotEqual,
    Not,
    Less,
    LessEqual,
    Greater,
    GreaterEqual,
    And,
    Or,
    PlusAssign,
    MinusAssign,
    StarAssign,
    SlashAssign,
    PercentAssign,
    AndAssign,
    OrAssign,
    OpenParen,
    CloseParen,
    OpenBrace,
    CloseBrace,
    Comma,
    Semicolon,
}

// A token of a source: its kind, the place of its first byte, its length in bytes, and the value of a constant (0 for
// any other kind).
#[derive(Clone, Copy, PartialEq, Eq, Debug, Default)]
pub struct Token {
    pub kind: Kind,
    pub place: u32,
    pub length: u32,
    pub value: i32,
}
