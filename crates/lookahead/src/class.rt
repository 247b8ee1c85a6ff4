// What kinds of token are to the grammar.
ghost use Rattle.std.specs.Prelude.{◌≡◌, ◌<◌, true, length, is_some};
ghost use Rattle.lookahead.specs.Seen.{seen, start_of, looseness_of, lead_of, assigns_of, is_scalar, is_result, is_constant};

use crate::text::Text;
use lexer::Kind;

// How an operand begins.
#[derive(Clone, Copy, PartialEq, Eq, Debug)]
pub enum Start {
    Name,
    Constant,
    // A minus or a `!`.
    Prefix,
    Bracket,
}

// How a statement begins.
#[derive(Clone, Copy, PartialEq, Eq, Debug)]
pub enum Lead {
    Block,
    Definition,
    Name,
    If,
    While,
    Do,
    For,
    // `break` or `continue`.
    Jump,
    Return,
    // An expression that does not begin with a name.
    Expression,
}

fn start_of(kind: Option<Kind>) -> Option<Start>
    ensures { result ≡ start_of kind }
{
    match kind? {
        Kind::Name => Some(Start::Name),
        Kind::Number | Kind::Character | Kind::True | Kind::False => Some(Start::Constant),
        Kind::Minus | Kind::Not => Some(Start::Prefix),
        Kind::OpenParen => Some(Start::Bracket),
        _ => None,
    }
}

// The looseness of the operator that binds most loosely.
pub const LOOSEST: u32 = 6;

fn looseness_of(kind: Option<Kind>) -> Option<u32>
    ensures { result ≡ looseness_of kind }
{
    match kind? {
        Kind::Star | Kind::Slash | Kind::Percent => Some(1),
        Kind::Plus | Kind::Minus => Some(2),
        Kind::Less | Kind::LessEqual | Kind::Greater | Kind::GreaterEqual => Some(3),
        Kind::Equal | Kind::NotEqual => Some(4),
        Kind::And => Some(5),
        Kind::Or => Some(6),
        _ => None,
    }
}

fn lead_of(kind: Option<Kind>) -> Option<Lead>
    ensures { result ≡ lead_of kind }
{
    match kind? {
        Kind::OpenBrace => Some(Lead::Block),
        Kind::Bool | Kind::Char | Kind::Int => Some(Lead::Definition),
        Kind::Name => Some(Lead::Name),
        Kind::If => Some(Lead::If),
        Kind::While => Some(Lead::While),
        Kind::Do => Some(Lead::Do),
        Kind::For => Some(Lead::For),
        Kind::Break | Kind::Continue => Some(Lead::Jump),
        Kind::Return => Some(Lead::Return),
        Kind::Number
        | Kind::Character
        | Kind::True
        | Kind::False
        | Kind::Minus
        | Kind::Not
        | Kind::OpenParen => Some(Lead::Expression),
        _ => None,
    }
}

impl<'a> Text<'a> {
    // How an operand begins at `at`, if one does.
    pub fn start_at(&self, at: usize) -> Option<Start>
        ensures same { result ≡ start_of (seen self.now.tokens.now at) }
        ensures inside { is_some result ≡ true → at < length self.now.tokens.now }
    {
        start_of(self.kind_at(at))
    }

    // How loosely the operator at `at` binds, from 1, if one that takes two operands stands there.
    pub fn looseness_at(&self, at: usize) -> Option<u32>
        ensures same { result ≡ looseness_of (seen self.now.tokens.now at) }
        ensures inside { is_some result ≡ true → at < length self.now.tokens.now }
    {
        looseness_of(self.kind_at(at))
    }

    // How a statement begins at `at`, if one does.
    pub fn lead_at(&self, at: usize) -> Option<Lead>
        ensures same { result ≡ lead_of (seen self.now.tokens.now at) }
        ensures inside { is_some result ≡ true → at < length self.now.tokens.now }
    {
        lead_of(self.kind_at(at))
    }

    // Each of the next four asks for kinds of its own; one function over a set would only move the sets to its callers.

    // Whether the token at `at` assigns to the name before it, plainly or by an operator.
    pub fn assigns_at(&self, at: usize) -> bool
        ensures same { result ≡ assigns_of (seen self.now.tokens.now at) }
        ensures inside { result ≡ true → at < length self.now.tokens.now }
    {
        matches!(
            self.kind_at(at),
            Some(
                Kind::Assign
                    | Kind::PlusAssign
                    | Kind::MinusAssign
                    | Kind::StarAssign
                    | Kind::SlashAssign
                    | Kind::PercentAssign
                    | Kind::AndAssign
                    | Kind::OrAssign
            )
        )
    }

    // Whether the token at `at` is a type.
    pub fn scalar_at(&self, at: usize) -> bool
        ensures same { result ≡ is_scalar (seen self.now.tokens.now at) }
        ensures inside { result ≡ true → at < length self.now.tokens.now }
    {
        matches!(self.kind_at(at), Some(Kind::Bool | Kind::Char | Kind::Int))
    }

    // Whether the token at `at` says what an extern gives.
    pub fn result_at(&self, at: usize) -> bool
        ensures same { result ≡ is_result (seen self.now.tokens.now at) }
        ensures inside { result ≡ true → at < length self.now.tokens.now }
    {
        matches!(
            self.kind_at(at),
            Some(Kind::Bool | Kind::Char | Kind::Int | Kind::Void)
        )
    }

    // Whether the token at `at` is a constant.
    pub fn constant_at(&self, at: usize) -> bool
        ensures same { result ≡ is_constant (seen self.now.tokens.now at) }
        ensures inside { result ≡ true → at < length self.now.tokens.now }
    {
        matches!(
            self.kind_at(at),
            Some(Kind::Number | Kind::Character | Kind::True | Kind::False)
        )
    }
}
