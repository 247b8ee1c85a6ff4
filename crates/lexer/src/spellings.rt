// The spelling of keywords and marks.
ghost use Rattle.std.specs.Prelude.{◌≡◌};
ghost use Rattle.lexer.specs.Spelling.{spelling_of, word_kind, mark_at};

use crate::kind::Kind;
use std::fmt;

const KEYWORDS: &[Kind; 18] = &[
    Kind::Bool,
    Kind::Char,
    Kind::Int,
    Kind::Float,
    Kind::Void,
    Kind::Extern,
    Kind::Static,
    Kind::If,
    Kind::Else,
    Kind::While,
    Kind::Do,
    Kind::For,
    Kind::To,
    Kind::Break,
    Kind::Continue,
    Kind::Return,
    Kind::True,
    Kind::False,
];

// The spelling of a keyword or mark, as text.
fn text(kind: Kind) -> &'static str
    ensures { result.now ≡ spelling_of kind }
{
    match kind {
        Kind::Name | Kind::Number | Kind::Character => "",
        Kind::Bool => "bool",
        Kind::Char => "char",
        Kind::Int => "int",
        Kind::Float => "float",
        Kind::Void => "void",
        Kind::Extern => "extern",
        Kind::Static => "static",
        Kind::If => "if",
        Kind::Else => "else",
        Kind::While => "while",
        Kind::Do => "do",
        Kind::For => "for",
        Kind::To => "to",
        Kind::Break => "break",
        Kind::Continue => "continue",
        Kind::Return => "return",
        Kind::True => "true",
        Kind::False => "false",
        Kind::Plus => "+",
        Kind::Minus => "-",
        Kind::Star => "*",
        Kind::Slash => "/",
        Kind::Percent => "%",
        Kind::Assign => "=",
        Kind::Equal => "==",
        Kind::NotEqual => "!=",
        Kind::Not => "!",
        Kind::Less => "<",
        Kind::LessEqual => "<=",
        Kind::Greater => ">",
        Kind::GreaterEqual => ">=",
        Kind::And => "&&",
        Kind::Or => "||",
        Kind::PlusAssign => "+=",
        Kind::MinusAssign => "-=",
        Kind::StarAssign => "*=",
        Kind::SlashAssign => "/=",
        Kind::PercentAssign => "%=",
        Kind::AndAssign => "&&=",
        Kind::OrAssign => "||=",
        Kind::OpenParen => "(",
        Kind::CloseParen => ")",
        Kind::OpenBrace => "{",
        Kind::CloseBrace => "}",
        Kind::Comma => ",",
        Kind::Semicolon => ";",
    }
}

// The spelling of a keyword or mark; a name or a constant has none of its own.
pub fn spelling(kind: Kind) -> &'static [u8]
    ensures { result.now ≡ spelling_of kind }
{
    text(kind).as_bytes()
}

// The keyword or mark itself, or a word for what has no spelling of its own.
impl fmt::Display for Kind {
    ghost use Rattle.std.specs.Prelude.{Some};
    ghost use Rattle.lexer.specs.Spelling.{label_of};

    ghost output = { λ kind. Some (label_of kind) };

    fn fmt<W: fmt::Write>(&self, f: &mut fmt::Formatter<W>) -> fmt::Result {
        let label = match *self {
            Kind::Name => "name",
            Kind::Number => "number",
            Kind::Character => "character",
            kind => text(kind),
        };
        write!(f, "{label}")
    }
}

// The kind of a word: the keyword so spelled, or a name.
pub(crate) fn word_kind(word: &[u8]) -> Kind
    ensures { result ≡ word_kind word.now }
{
    // Tried: `find`; it goes to the spelling of each keyword by a jump, and to read short names then takes 1.5 times the
    // processor's instructions.
    for keyword in KEYWORDS {
        if word == spelling(*keyword) {
            return *keyword;
        }
    }
    Kind::Name
}

// The longest mark that `rest` begins with, and its length.
pub(crate) fn mark_at(rest: &[u8]) -> Option<(Kind, usize)>
    ensures { result ≡ mark_at rest.now }
{
    match rest {
        [b'&', b'&', b'=', ..] => Some((Kind::AndAssign, 3)),
        [b'|', b'|', b'=', ..] => Some((Kind::OrAssign, 3)),
        [b'=', b'=', ..] => Some((Kind::Equal, 2)),
        [b'!', b'=', ..] => Some((Kind::NotEqual, 2)),
        [b'<', b'=', ..] => Some((Kind::LessEqual, 2)),
        [b'>', b'=', ..] => Some((Kind::GreaterEqual, 2)),
        [b'&', b'&', ..] => Some((Kind::And, 2)),
        [b'|', b'|', ..] => Some((Kind::Or, 2)),
        [b'+', b'=', ..] => Some((Kind::PlusAssign, 2)),
        [b'-', b'=', ..] => Some((Kind::MinusAssign, 2)),
        [b'*', b'=', ..] => Some((Kind::StarAssign, 2)),
        [b'/', b'=', ..] => Some((Kind::SlashAssign, 2)),
        [b'%', b'=', ..] => Some((Kind::PercentAssign, 2)),
        [b'+', ..] => Some((Kind::Plus, 1)),
        [b'-', ..] => Some((Kind::Minus, 1)),
        [b'*', ..] => Some((Kind::Star, 1)),
        [b'/', ..] => Some((Kind::Slash, 1)),
        [b'%', ..] => Some((Kind::Percent, 1)),
        [b'=', ..] => Some((Kind::Assign, 1)),
        [b'!', ..] => Some((Kind::Not, 1)),
        [b'<', ..] => Some((Kind::Less, 1)),
        [b'>', ..] => Some((Kind::Greater, 1)),
        [b'(', ..] => Some((Kind::OpenParen, 1)),
        [b')', ..] => Some((Kind::CloseParen, 1)),
        [b'{', ..] => Some((Kind::OpenBrace, 1)),
        [b'}', ..] => Some((Kind::CloseBrace, 1)),
        [b',', ..] => Some((Kind::Comma, 1)),
        [b';', ..] => Some((Kind::Semicolon, 1)),
        _ => None,
    }
}
