// Scripts: externs and globals, then main. The grammar has passed the tokens.
// `within`, and no cursor as in the parser: an answer is a place, perhaps with a type, of a text by reference, asked at one.
ghost use Rattle.std.specs.Prelude.{◌<◌, ◌≤◌, length, IfOk};
ghost use Rattle.stacks.specs.Held.{seen};
ghost use Rattle.translator.specs.Scripts.{GivenBy, TakenAt, TranslatesExtern, TranslatesGlobal, TranslatesItem, TranslatesItems, TranslatesMain, TranslatesScript};

use crate::define::{declare, define, enter};
use crate::look::{literal_of, scalar_of};
use crate::name::{Callee, Entry, Name};
use crate::op::{emit, emit_constant};
use crate::pending::land_all;
use crate::scope::cells_in;
use crate::typed::Parameter;
use crate::work::Work;
use lexer::Kind;
use lookahead::Text;
use machine::{Instruction, Op};
use meaning::Scalar;
use refusal::{Reason, Refusal};
use stacks::BoundedStack;

// What an extern gives, by the keyword: `void` gives no type, so it is an `Option` and no `TryFrom`.
fn given_by(kind: Kind) -> Option<Scalar>
    ensures { GivenBy kind result }
{
    match kind {
        Kind::Void => None,
        _ => Some(scalar_of(kind)),
    }
}

// The parameter at `at`, after the opening bracket.
fn parameter_at(text: &Text, at: usize) -> Parameter
    ensures near { at ≤ result.close }
    ensures within { at ≤ length text.now.tokens.now → result.close ≤ length text.now.tokens.now }
    ensures same { TakenAt text.now.tokens.now at result }
{
    if text.is_at(at, Kind::CloseParen) {
        return Parameter {
            takes: None,
            close: at,
        };
    }
    Parameter {
        takes: Some(scalar_of(text.token_at(at).kind)),
        close: text.past(text.past(at)),
    }
}

// An extern, from its keyword on.
fn external(text: &Text, at: usize, names: &mut BoundedStack<Name>) -> Result<usize, Refusal>
    requires { at < length text.now.tokens.now }
    ensures within { IfOk result (λ q. (at < q) × (q ≤ length text.now.tokens.now)) }
    ensures same { TranslatesExtern text.now.source.now text.now.tokens.now at (seen names.old) (seen names.new) result }
{
    let result = at + 1;
    let name = text.past(result);
    let inside = text.past(text.past(name));
    let gives = given_by(text.token_at(result).kind);
    let parameter = parameter_at(text, inside);
    declare(text, name, gives, parameter.takes, names)?;
    Ok(text.past(text.past(parameter.close)))
}

// A global, from its type on.
fn global(
    text: &Text,
    at: usize,
    names: &mut BoundedStack<Name>,
    code: &mut BoundedStack<Instruction>,
) -> Result<usize, Refusal>
    requires { at ≤ length text.now.tokens.now }
    ensures within { IfOk result (λ q. (at ≤ q) × (at < length text.now.tokens.now → at < q) × (q ≤ length text.now.tokens.now)) }
    ensures same { TranslatesGlobal text.now.source.now text.now.tokens.now at (seen names.old) (seen names.new) (seen code.old) (seen code.new) result }
{
    let kind = scalar_of(text.token_at(at).kind);
    let name = text.past(at);
    let value = text.past(text.past(name));
    let constant = text.token_at(value);
    let literal = literal_of(constant);
    let place = text.token_at(name).place;
    if literal.kind != kind {
        return Err(Reason::TypeMismatch.at(place));
    }
    // Counted before the name has a cell of its own.
    let cell = cells_in(names, names.len());
    define(text, name, kind, names)?;
    emit_constant(code, literal.value, constant.place);
    emit(code, Op::Store, cell, place);
    Ok(text.past(text.past(value)))
}

// An extern or a global, where main does not begin.
fn item(
    text: &Text,
    at: usize,
    names: &mut BoundedStack<Name>,
    code: &mut BoundedStack<Instruction>,
) -> Result<usize, Refusal>
    requires { at < length text.now.tokens.now }
    ensures within { IfOk result (λ q. (at < q) × (q ≤ length text.now.tokens.now)) }
    ensures same { TranslatesItem text.now.source.now text.now.tokens.now at (seen names.old) (seen names.new) (seen code.old) (seen code.new) result }
{
    if text.is_at(at, Kind::Extern) {
        external(text, at, names)
    } else {
        global(text, text.past_static(at), names, code)
    }
}

// What stands before main; the answer is the place of main's closing bracket.
fn items(
    text: &Text,
    names: &mut BoundedStack<Name>,
    code: &mut BoundedStack<Instruction>,
) -> Result<usize, Refusal>
    ensures { TranslatesItems text.now.source.now text.now.tokens.now 0 (seen names.old) (seen names.new) (seen code.old) (seen code.new) result }
{
    let mut at = 0;
    'items: while at < text.tokens.len() {
        match text.past_main(at) {
            Some(rest) => return Ok(rest),
            None => at = item(text, at, names, code)?,
        }
    }
    // No script's tokens end before main.
    Ok(at)
}

impl Work<'_> {
    // Main, from its closing bracket on.
    fn main_rest(&mut self, text: &Text, at: usize) -> Result<(), Refusal>
        ensures { TranslatesMain text.now.source.now text.now.tokens.now at (seen self.old.names) (seen self.old.jumps) (seen self.old.code) (seen self.new.code) result }
    {
        enter(&mut self.names, Entry::Level);
        enter(&mut self.names, Entry::Function(Callee::Main));
        enter(&mut self.names, Entry::Level);
        let body = text.past(text.past(at));
        let close = self.statements(text, body, false)?;
        // None is left to land: outside loops there is no `break` or `continue`.
        land_all(&mut self.jumps, 0, &mut self.code, 0, 0);
        let place = text.token_at(close).place;
        emit(&mut self.code, Op::Push, 0, place);
        emit(&mut self.code, Op::Return, 0, place);
        Ok(())
    }

    // A script: its code, or its first fault.
    pub(crate) fn script(&mut self, text: &Text) -> Result<(), Refusal>
        ensures { TranslatesScript text.now.source.now text.now.tokens.now (seen self.old.names) (seen self.old.jumps) (seen self.old.code) (seen self.new.code) result }
    {
        enter(&mut self.names, Entry::Level);
        let rest = items(text, &mut self.names, &mut self.code)?;
        self.main_rest(text, rest)
    }
}
