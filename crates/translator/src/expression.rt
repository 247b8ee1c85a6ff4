// Expressions: types and code.
// `within`, and no cursor as in the parser: an answer is a place beside a type, of a text by reference, asked at an argument.
ghost use Rattle.std.specs.Prelude.{◌≡◌, ℕ, ◌+◌, ◌<◌, ◌≤◌, true, List, length, IfOk, Ok};
ghost use Rattle.translator.specs.Look.{call_seen};
ghost use Rattle.stacks.specs.Held.{seen};
ghost use Rattle.meaning.specs.Check.{Scope};
ghost use Rattle.meaning.specs.Trees as Tree;
ghost use Rattle.meaning.specs.Trees.{Ident, Constant, Unary, Expr, Args};
ghost use Rattle.meaning.specs.Types.{result_of};
ghost use Rattle.meaning.specs.declared.operator.Operator.TheVariants.{And, Or};
ghost use Rattle.refusal.specs.Told.{accepted};
ghost use Rattle.layout.proofs.Compiled.{strict as bothTaken, shape_of, codes_of, is_char};
ghost use Rattle.translator.specs.Code.{codes_by};
ghost use Rattle.translator.specs.Expressions.{ExprAt, ExprDone, Translates, TranslatesAs, Continues, Joins, TranslatesArgs, TranslatesCall, TranslatesWhole, Operates, Results};

use crate::callee::{call_op, gives, takes};
use crate::look::{calls_at, literal_of, operator_at};
use crate::name::Name;
use crate::op::{emit, emit_constant};
use crate::pending::PendingJump;
use crate::scope::{callee_at, variable_at};
use crate::typed::{Called, Given, Listed, Typed};
use lexer::Kind;
use lookahead::{LOOSEST, Start, Text};
use machine::{Instruction, Op};
use meaning::{Operator, Scalar, result_type};
use refusal::{Reason, Refusal};
use stacks::BoundedStack;

// The instruction of an operator that takes both operands from the stack, and perhaps one that mends its answer: the low
// 8 bits of a char's, or the opposite.
fn operations(operator: Operator, kind: Scalar) -> (Op, Option<Op>)
    ensures { shape_of operator ≡ bothTaken → codes_of operator (is_char (accepted kind)) ≡ codes_by result.0 result.1 }
{
    let low = match kind {
        Scalar::Char => Some(Op::Low),
        Scalar::Bool | Scalar::Int => None,
    };
    match operator {
        Operator::Add => (Op::Add, low),
        Operator::Subtract => (Op::Subtract, low),
        Operator::Multiply => (Op::Multiply, low),
        Operator::Divide => (Op::Divide, low),
        Operator::Remainder => (Op::Remainder, None),
        Operator::Less => (Op::Less, None),
        Operator::LessEqual => (Op::Greater, Some(Op::Not)),
        Operator::Greater => (Op::Greater, None),
        Operator::GreaterEqual => (Op::Less, Some(Op::Not)),
        Operator::Equal | Operator::And | Operator::Or => (Op::Equal, None),
        Operator::NotEqual => (Op::Equal, Some(Op::Not)),
    }
}

// The instructions of an operator whose operands, of this type, are on the stack.
fn operate(code: &mut BoundedStack<Instruction>, operator: Operator, kind: Scalar, place: u32)
    ensures { shape_of operator ≡ bothTaken → Operates (seen code.old) operator kind place (seen code.new) }
{
    let (first, second) = operations(operator, kind);
    emit(code, first, 0, place);
    if let Some(op) = second {
        emit(code, op, 0, place);
    }
}

// An operator's type at its operands' types.
fn result_of(operator: Operator, left: Scalar, right: Typed, place: u32) -> Result<Typed, Refusal>
    ensures { Results (result_of operator left right.kind) place right.end result }
{
    let end = right.end;
    result_type(operator, left, right.kind)
        .map(|kind| Typed { kind, end })
        .ok_or(Reason::TypeMismatch.at(place))
}

// An expression. It only reads the names, which a shared borrow says, so it takes the two stacks apart.
#[cycle(expressions)]
pub(crate) fn expression(
    text: &Text,
    at: usize,
    names: &BoundedStack<Name>,
    code: &mut BoundedStack<Instruction>,
) -> Result<Typed, Refusal>
    ensures within { IfOk result (λ q. (at < q.end) × (q.end ≤ length text.now.tokens.now)) }
    ensures same { Translates 6 text.now.source.now text.now.tokens.now at (seen names.now) (seen code.old) (seen code.new) result }
{
    binary(text, at, names, code, LOOSEST)
}

// Operands joined by operators that bind no more loosely than `loosest`.
#[cycle(expressions)]
fn binary(
    text: &Text,
    at: usize,
    names: &BoundedStack<Name>,
    code: &mut BoundedStack<Instruction>,
    loosest: u32,
) -> Result<Typed, Refusal>
    requires { loosest ≤ 6 }
    ensures within { IfOk result (λ q. (at < q.end) × (q.end ≤ length text.now.tokens.now)) }
    ensures same { Translates loosest text.now.source.now text.now.tokens.now at (seen names.now) (seen code.old) (seen code.new) result }
{
    let left = operand(text, at, names, code)?;
    continued(text, left, names, code, loosest)
}

// What follows the leftmost operand: operators that bind no more loosely than `loosest`, the tightest first.
#[cycle(expressions)]
pub(crate) fn continued(
    text: &Text,
    first: Typed,
    names: &BoundedStack<Name>,
    code: &mut BoundedStack<Instruction>,
    loosest: u32,
) -> Result<Typed, Refusal>
    requires { (loosest ≤ 6) × (first.end ≤ length text.now.tokens.now) }
    ensures within { IfOk result (λ q. (first.end ≤ q.end) × (q.end ≤ length text.now.tokens.now)) }
    ensures same { Continues loosest text.now.source.now text.now.tokens.now first (seen names.now) (seen code.old) (seen code.new) result }
{
    if loosest == 0 {
        return Ok(first);
    }
    let mut left = continued(text, first, names, code, loosest - 1)?;
    'operands: while let Some(operator) = operator_at(text, left.end, loosest) {
        left = joined(text, left, operator, names, code, loosest - 1)?;
    }
    Ok(left)
}

// An operator after its left operand, with the right one, whose operators bind no more loosely than `tighter`.
#[cycle(expressions)]
pub(crate) fn joined(
    text: &Text,
    left: Typed,
    operator: Operator,
    names: &BoundedStack<Name>,
    code: &mut BoundedStack<Instruction>,
    tighter: u32,
) -> Result<Typed, Refusal>
    requires { (tighter ≤ 6) × (left.end < length text.now.tokens.now) }
    ensures within { IfOk result (λ q. (left.end < q.end) × (q.end ≤ length text.now.tokens.now)) }
    ensures same { Joins tighter text.now.source.now text.now.tokens.now left operator (seen names.now) (seen code.old) (seen code.new) result }
{
    match operator {
        Operator::And => conjunction(text, left, names, code, tighter),
        Operator::Or => disjunction(text, left, names, code, tighter),
        _ => strict(text, left, operator, names, code, tighter),
    }
}

// An operator that takes both operands.
#[cycle(expressions)]
fn strict(
    text: &Text,
    left: Typed,
    operator: Operator,
    names: &BoundedStack<Name>,
    code: &mut BoundedStack<Instruction>,
    tighter: u32,
) -> Result<Typed, Refusal>
    requires { (tighter ≤ 6) × (left.end < length text.now.tokens.now) }
    ensures within { IfOk result (λ q. (left.end < q.end) × (q.end ≤ length text.now.tokens.now)) }
    ensures same { shape_of operator ≡ bothTaken → Joins tighter text.now.source.now text.now.tokens.now left operator (seen names.now) (seen code.old) (seen code.new) result }
{
    let place = text.token_at(left.end).place;
    let right = binary(text, text.past(left.end), names, code, tighter)?;
    operate(code, operator, left.kind, place);
    result_of(operator, left.kind, right, place)
}

// `&&`: a left operand that is 0 skips the right one.
#[cycle(expressions)]
fn conjunction(
    text: &Text,
    left: Typed,
    names: &BoundedStack<Name>,
    code: &mut BoundedStack<Instruction>,
    tighter: u32,
) -> Result<Typed, Refusal>
    requires { (tighter ≤ 6) × (left.end < length text.now.tokens.now) }
    ensures within { IfOk result (λ q. (left.end < q.end) × (q.end ≤ length text.now.tokens.now)) }
    ensures same { Joins tighter text.now.source.now text.now.tokens.now left And (seen names.now) (seen code.old) (seen code.new) result }
{
    let place = text.token_at(left.end).place;
    let skip = PendingJump::emit(code, Op::JumpIfZero, place);
    let (skip, right) = skip.after(binary(text, text.past(left.end), names, code, tighter))?;
    let done = PendingJump::emit(code, Op::Jump, place);
    let otherwise = code.len();
    skip.land(code, otherwise);
    emit(code, Op::Push, 0, place);
    let end = code.len();
    done.land(code, end);
    result_of(Operator::And, left.kind, right, place)
}

// `||`: a left operand that is not 0 skips the right one.
#[cycle(expressions)]
fn disjunction(
    text: &Text,
    left: Typed,
    names: &BoundedStack<Name>,
    code: &mut BoundedStack<Instruction>,
    tighter: u32,
) -> Result<Typed, Refusal>
    requires { (tighter ≤ 6) × (left.end < length text.now.tokens.now) }
    ensures within { IfOk result (λ q. (left.end < q.end) × (q.end ≤ length text.now.tokens.now)) }
    ensures same { Joins tighter text.now.source.now text.now.tokens.now left Or (seen names.now) (seen code.old) (seen code.new) result }
{
    let place = text.token_at(left.end).place;
    let otherwise = PendingJump::emit(code, Op::JumpIfZero, place);
    emit(code, Op::Push, 1, place);
    let done = PendingJump::emit(code, Op::Jump, place);
    let start = code.len();
    otherwise.land(code, start);
    let (done, right) = done.after(binary(text, text.past(left.end), names, code, tighter))?;
    let end = code.len();
    done.land(code, end);
    result_of(Operator::Or, left.kind, right, place)
}

// A constant, a variable, a call, an expression in brackets, or a prefix operator with its operand.
#[cycle(expressions)]
fn operand(
    text: &Text,
    at: usize,
    names: &BoundedStack<Name>,
    code: &mut BoundedStack<Instruction>,
) -> Result<Typed, Refusal>
    ensures within { IfOk result (λ q. (at < q.end) × (q.end ≤ length text.now.tokens.now)) }
    ensures same { Translates 0 text.now.source.now text.now.tokens.now at (seen names.now) (seen code.old) (seen code.new) result }
{
    match text.start_at(at) {
        Some(Start::Constant) => Ok(constant(text, at, code)),
        Some(Start::Prefix) => prefixed(text, at, names, code),
        Some(Start::Bracket) => bracketed(text, at, names, code),
        Some(Start::Name) if text.is_at(at + 1, Kind::OpenParen) => {
            value_of_call(text, at, names, code)
        }
        Some(Start::Name) => variable(text, at, names, code),
        None => Err(unexpected(text, at)),
    }
}

// The fault of tokens that are no script's.
pub(crate) fn unexpected(text: &Text, at: usize) -> Refusal {
    Reason::UnexpectedToken.at(text.token_at(at).place)
}

// A constant.
fn constant(text: &Text, at: usize, code: &mut BoundedStack<Instruction>) -> Typed
    requires { at < length text.now.tokens.now }
    ensures within { result.end ≡ at + 1 }
    ensures same { (s : List ℕ) (Γ : Scope) (k : Constant) (h : ExprAt 0 s text.now.tokens.now at Γ (seen code.old) (Tree.constant k)) → ExprDone s text.now.tokens.now Γ (seen code.new) (Tree.constant k) h.rest h.code (Ok result) }
{
    let token = text.token_at(at);
    let literal = literal_of(token);
    emit_constant(code, literal.value, token.place);
    Typed {
        kind: literal.kind,
        end: at + 1,
    }
}

// A variable.
fn variable(
    text: &Text,
    at: usize,
    names: &BoundedStack<Name>,
    code: &mut BoundedStack<Instruction>,
) -> Result<Typed, Refusal>
    requires { at < length text.now.tokens.now }
    ensures within { IfOk result (λ q. (at < q.end) × (q.end ≤ length text.now.tokens.now)) }
    ensures same { (x : Ident) → TranslatesAs 0 text.now.source.now text.now.tokens.now at (seen names.now) (seen code.old) (seen code.new) (Tree.variable x) result }
{
    let found = variable_at(text, at, names)?;
    emit(code, Op::Load, found.cell, text.token_at(at).place);
    Ok(Typed {
        kind: found.kind,
        end: at + 1,
    })
}

// A minus or a `!` with its operand.
#[cycle(expressions)]
fn prefixed(
    text: &Text,
    at: usize,
    names: &BoundedStack<Name>,
    code: &mut BoundedStack<Instruction>,
) -> Result<Typed, Refusal>
    requires { at < length text.now.tokens.now }
    ensures within { IfOk result (λ q. (at < q.end) × (q.end ≤ length text.now.tokens.now)) }
    ensures same { (u : Unary) (p : ℕ) (e : Expr) → TranslatesAs 0 text.now.source.now text.now.tokens.now at (seen names.now) (seen code.old) (seen code.new) (Tree.unary u p e) result }
{
    if text.is_at(at, Kind::Minus) {
        negated(text, at, names, code)
    } else {
        inverted(text, at, names, code)
    }
}

// A minus with its operand: what is left of 0.
#[cycle(expressions)]
fn negated(
    text: &Text,
    at: usize,
    names: &BoundedStack<Name>,
    code: &mut BoundedStack<Instruction>,
) -> Result<Typed, Refusal>
    requires { at < length text.now.tokens.now }
    ensures within { IfOk result (λ q. (at < q.end) × (q.end ≤ length text.now.tokens.now)) }
    ensures same { (p : ℕ) (e : Expr) → TranslatesAs 0 text.now.source.now text.now.tokens.now at (seen names.now) (seen code.old) (seen code.new) (Tree.unary Tree.negate p e) result }
{
    let place = text.token_at(at).place;
    emit(code, Op::Push, 0, place);
    let under = operand(text, at + 1, names, code)?;
    operate(code, Operator::Subtract, under.kind, place);
    match under.kind {
        Scalar::Char | Scalar::Int => Ok(under),
        Scalar::Bool => Err(Reason::TypeMismatch.at(place)),
    }
}

// A `!` with its operand.
#[cycle(expressions)]
fn inverted(
    text: &Text,
    at: usize,
    names: &BoundedStack<Name>,
    code: &mut BoundedStack<Instruction>,
) -> Result<Typed, Refusal>
    requires { at < length text.now.tokens.now }
    ensures within { IfOk result (λ q. (at < q.end) × (q.end ≤ length text.now.tokens.now)) }
    ensures same { (p : ℕ) (e : Expr) → TranslatesAs 0 text.now.source.now text.now.tokens.now at (seen names.now) (seen code.old) (seen code.new) (Tree.unary Tree.invert p e) result }
{
    let place = text.token_at(at).place;
    let under = operand(text, at + 1, names, code)?;
    emit(code, Op::Not, 0, place);
    match under.kind {
        Scalar::Bool => Ok(under),
        Scalar::Char | Scalar::Int => Err(Reason::TypeMismatch.at(place)),
    }
}

// An expression in brackets.
#[cycle(expressions)]
fn bracketed(
    text: &Text,
    at: usize,
    names: &BoundedStack<Name>,
    code: &mut BoundedStack<Instruction>,
) -> Result<Typed, Refusal>
    requires { at < length text.now.tokens.now }
    ensures within { IfOk result (λ q. (at < q.end) × (q.end ≤ length text.now.tokens.now)) }
    ensures same { (q : ℕ × ℕ) (e : Expr) → TranslatesAs 0 text.now.source.now text.now.tokens.now at (seen names.now) (seen code.old) (seen code.new) (Tree.bracket q e) result }
{
    let inner = expression(text, at + 1, names, code)?;
    Ok(Typed {
        kind: inner.kind,
        end: text.past(inner.end),
    })
}

// A call that has to give a value.
#[cycle(expressions)]
fn value_of_call(
    text: &Text,
    at: usize,
    names: &BoundedStack<Name>,
    code: &mut BoundedStack<Instruction>,
) -> Result<Typed, Refusal>
    requires { at < length text.now.tokens.now }
    ensures within { IfOk result (λ q. (at < q.end) × (q.end ≤ length text.now.tokens.now)) }
    ensures same { (x : Ident) (q : ℕ × ℕ) (xs : Args) → TranslatesAs 0 text.now.source.now text.now.tokens.now at (seen names.now) (seen code.old) (seen code.new) (Tree.call x q xs) result }
{
    let called = call(text, at, names, code)?;
    match called.value() {
        Some(typed) => Ok(typed),
        None => Err(Reason::TypeMismatch.at(text.token_at(at).place)),
    }
}

// A call: the function, then the arguments, then whether it takes them.
#[cycle(expressions)]
pub(crate) fn call(
    text: &Text,
    at: usize,
    names: &BoundedStack<Name>,
    code: &mut BoundedStack<Instruction>,
) -> Result<Called, Refusal>
    requires { at < length text.now.tokens.now }
    ensures within { IfOk result (λ q. (at < q.end) × (q.end ≤ length text.now.tokens.now)) }
    ensures same { TranslatesCall text.now.source.now text.now.tokens.now at (seen names.now) (seen code.old) (seen code.new) result }
{
    let callee = callee_at(text, at, names)?;
    let open = text.past(at + 1);
    let listed = arguments(text, open, names, code)?;
    let place = text.token_at(at).place;
    if !takes(callee, listed.given) {
        return Err(Reason::TypeMismatch.at(place));
    }
    emit(code, call_op(callee), 0, place);
    Ok(Called {
        gives: gives(callee),
        end: listed.end,
    })
}

// The arguments of a call, and the bracket that closes them.
#[cycle(expressions)]
fn arguments(
    text: &Text,
    at: usize,
    names: &BoundedStack<Name>,
    code: &mut BoundedStack<Instruction>,
) -> Result<Listed, Refusal>
    ensures within { IfOk result (λ q. (at ≤ q.end) × (at ≤ length text.now.tokens.now → q.end ≤ length text.now.tokens.now)) }
    ensures same { TranslatesArgs text.now.source.now text.now.tokens.now at (seen names.now) (seen code.old) (seen code.new) result }
{
    if text.is_at(at, Kind::CloseParen) {
        return Ok(Listed {
            given: Given::Nothing,
            end: text.past(at),
        });
    }
    let first = expression(text, at, names, code)?;
    let mut given = Given::One(first.kind);
    let mut end = first.end;
    'arguments: while text.is_at(end, Kind::Comma) {
        let next = expression(text, end + 1, names, code)?;
        given = Given::Many;
        end = next.end;
    }
    Ok(Listed {
        given,
        end: text.past(end),
    })
}

// A whole expression statement before its semicolon: only here a call may give nothing.
pub(crate) fn whole(
    text: &Text,
    at: usize,
    names: &BoundedStack<Name>,
    code: &mut BoundedStack<Instruction>,
) -> Result<Called, Refusal>
    ensures within { IfOk result (λ q. (at < q.end) × (q.end ≤ length text.now.tokens.now)) }
    ensures same { TranslatesWhole text.now.source.now text.now.tokens.now at (seen names.now) (seen code.old) (seen code.new) result }
{
    if calls_at(text, at) {
        return begun_by_call(text, at, names, code);
    }
    let typed = expression(text, at, names, code)?;
    Ok(typed.into())
}

// A whole expression statement that begins with a call.
fn begun_by_call(
    text: &Text,
    at: usize,
    names: &BoundedStack<Name>,
    code: &mut BoundedStack<Instruction>,
) -> Result<Called, Refusal>
    requires { at < length text.now.tokens.now }
    ensures within { IfOk result (λ q. (at < q.end) × (q.end ≤ length text.now.tokens.now)) }
    ensures same { call_seen text.now.tokens.now at ≡ true → TranslatesWhole text.now.source.now text.now.tokens.now at (seen names.now) (seen code.old) (seen code.new) result }
{
    let called = call(text, at, names, code)?;
    if text.is_at(called.end, Kind::Semicolon) {
        return Ok(called);
    }
    let Some(first) = called.value() else {
        return Err(Reason::TypeMismatch.at(text.token_at(at).place));
    };
    let typed = continued(text, first, names, code, LOOSEST)?;
    Ok(typed.into())
}
