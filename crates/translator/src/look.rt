// Tokens that the grammar has passed: which one stands at a place, and what comes after it.
ghost use Rattle.std.specs.Prelude.{◌≡◌, ◌+◌, ◌<◌, ◌≤◌, true, length, is_some, Some};
ghost use Rattle.std.specs.List.{slice_get};
ghost use Rattle.translator.specs.Look.{LiteralOf, OperatorOf, OperatorAt, ModifierOf, ScalarOf, call_seen};

use lexer::{Kind, Token};
use lookahead::Text;
use meaning::{Operator, Scalar};

// The grammar has passed the tokens, so each but `modifier_of` finds what is asked for: a `TryFrom` could not fail.

// A constant: its type, and its value as the machine holds it.
#[derive(Clone, Copy, PartialEq, Eq, Debug)]
pub(crate) struct Literal {
    pub(crate) kind: Scalar,
    pub(crate) value: i32,
}

pub(crate) fn literal_of(token: Token) -> Literal
    ensures { LiteralOf token result }
{
    match token.kind {
        Kind::Number => Literal {
            kind: Scalar::Int,
            value: token.value,
        },
        Kind::Character => Literal {
            kind: Scalar::Char,
            value: token.value,
        },
        Kind::True => Literal {
            kind: Scalar::Bool,
            value: 1,
        },
        _ => Literal {
            kind: Scalar::Bool,
            value: 0,
        },
    }
}

// The operator that a mark stands for.
fn operator_of(kind: Kind) -> Operator
    ensures { OperatorOf kind result }
{
    match kind {
        Kind::Plus => Operator::Add,
        Kind::Minus => Operator::Subtract,
        Kind::Star => Operator::Multiply,
        Kind::Slash => Operator::Divide,
        Kind::Percent => Operator::Remainder,
        Kind::Less => Operator::Less,
        Kind::LessEqual => Operator::LessEqual,
        Kind::Greater => Operator::Greater,
        Kind::GreaterEqual => Operator::GreaterEqual,
        Kind::Equal => Operator::Equal,
        Kind::NotEqual => Operator::NotEqual,
        Kind::And => Operator::And,
        _ => Operator::Or,
    }
}

// The operator of this looseness that stands at `at`, if one does.
pub(crate) fn operator_at(text: &Text, at: usize, looseness: u32) -> Option<Operator>
    ensures same { OperatorAt text.now.tokens.now at looseness result }
    ensures inside { is_some result ≡ true → at < length text.now.tokens.now }
{
    (text.looseness_at(at)? == looseness).then_some(operator_of(text.token_at(at).kind))
}

// The operator of a modifier. A plain assignment has none, which is no fault: an `Option`, and no `TryFrom`.
pub(crate) fn modifier_of(kind: Kind) -> Option<Operator>
    ensures { ModifierOf kind result }
{
    match kind {
        Kind::PlusAssign => Some(Operator::Add),
        Kind::MinusAssign => Some(Operator::Subtract),
        Kind::StarAssign => Some(Operator::Multiply),
        Kind::SlashAssign => Some(Operator::Divide),
        Kind::PercentAssign => Some(Operator::Remainder),
        Kind::AndAssign => Some(Operator::And),
        Kind::OrAssign => Some(Operator::Or),
        _ => None,
    }
}

// The type that a keyword names.
pub(crate) fn scalar_of(kind: Kind) -> Scalar
    ensures { ScalarOf kind result }
{
    match kind {
        Kind::Bool => Scalar::Bool,
        Kind::Char => Scalar::Char,
        _ => Scalar::Int,
    }
}

// Whether a call stands at `at`: a name and an opening bracket.
pub(crate) fn calls_at(text: &Text, at: usize) -> bool
    ensures same { result ≡ call_seen text.now.tokens.now at }
    ensures inside { result ≡ true → at < length text.now.tokens.now }
{
    if text.is_at(at, Kind::Name) {
        text.is_at(at + 1, Kind::OpenParen)
    } else {
        false
    }
}
