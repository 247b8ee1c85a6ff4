// Statements: names, types and code.
// `within`, and no cursor as in the parser: an answer is a place alone, of a text passed by reference, asked at an argument.
ghost use Rattle.std.specs.Prelude.{◌+◌, ◌<◌, ◌≤◌, length, IfOk};
ghost use Rattle.stacks.specs.Held.{seen};
ghost use Rattle.translator.specs.Statements.{held, TranslatesNeeded, TranslatesCondition, Closes, Tests, Advances, TranslatesStmt, TranslatesStmts, TranslatesBlock, TranslatesBody, TranslatesDefinition, TranslatesAssignment, TranslatesModification, TranslatesEvaluation, TranslatesConditional, TranslatesElse, TranslatesWhile, TranslatesDo, TranslatesBounds, TranslatesFor, TranslatesCount, TranslatesJump, TranslatesReturn};

use crate::define::{CELLS_BEFORE_FOR, bind, define, enter};
use crate::expression::{expression, joined, unexpected, whole};
use crate::look::{modifier_of, scalar_of};
use crate::name::{Entry, Name};
use crate::op::emit;
use crate::pending::{Jump, PendingJump, land_all};
use crate::scope::{cells_in, variable_at};
use crate::typed::Typed;
use crate::work::Work;
use lexer::Kind;
use lookahead::{LOOSEST, Lead, Text};
use machine::{Instruction, Op};
use meaning::{Operator, Scalar};
use refusal::{Reason, Refusal};
use stacks::BoundedStack;

// An expression of a type, else a fault at `place`.
fn needed(
    text: &Text,
    at: usize,
    names: &BoundedStack<Name>,
    code: &mut BoundedStack<Instruction>,
    kind: Scalar,
    place: u32,
) -> Result<usize, Refusal>
    ensures within { IfOk result (λ q. (at < q) × (q ≤ length text.now.tokens.now)) }
    ensures same { TranslatesNeeded text.now.source.now text.now.tokens.now at kind place (seen names.now) (seen code.old) (seen code.new) result }
{
    let value = expression(text, at, names, code)?;
    if value.kind == kind {
        Ok(value.end)
    } else {
        Err(Reason::TypeMismatch.at(place))
    }
}

// The condition of a statement, in brackets.
fn condition(
    text: &Text,
    at: usize,
    names: &BoundedStack<Name>,
    code: &mut BoundedStack<Instruction>,
    place: u32,
) -> Result<usize, Refusal>
    ensures within { IfOk result (λ q. (at < q) × (q ≤ length text.now.tokens.now)) }
    ensures same { TranslatesCondition text.now.source.now text.now.tokens.now at place (seen names.now) (seen code.old) (seen code.new) result }
{
    let end = needed(text, text.past(at), names, code, Scalar::Bool, place)?;
    Ok(text.past(end))
}

// TYPE NAME = e ;
// It changes the names and the code and leaves the jumps alone, which taking two stacks says without a clause.
fn definition(
    text: &Text,
    at: usize,
    names: &mut BoundedStack<Name>,
    code: &mut BoundedStack<Instruction>,
) -> Result<usize, Refusal>
    requires { at < length text.now.tokens.now }
    ensures within { IfOk result (λ q. (at < q) × (q ≤ length text.now.tokens.now)) }
    ensures same { TranslatesDefinition text.now.source.now text.now.tokens.now at (seen names.old) (seen code.old) (seen names.new) (seen code.new) result }
{
    let kind = scalar_of(text.token_at(at).kind);
    let place = text.token_at(at + 1).place;
    let value = text.past(text.past(at + 1));
    let end = needed(text, value, names, code, kind, place)?;
    let cell = cells_in(names, names.len());
    define(text, at + 1, kind, names)?;
    emit(code, Op::Store, cell, place);
    Ok(text.past(end))
}

// NAME = e ;
fn assignment(
    text: &Text,
    at: usize,
    names: &BoundedStack<Name>,
    code: &mut BoundedStack<Instruction>,
) -> Result<usize, Refusal>
    requires { at < length text.now.tokens.now }
    ensures within { IfOk result (λ q. (at < q) × (q ≤ length text.now.tokens.now)) }
    ensures same { TranslatesAssignment text.now.source.now text.now.tokens.now at (seen names.now) (seen code.old) (seen code.new) result }
{
    let variable = variable_at(text, at, names)?;
    let place = text.token_at(at + 1).place;
    let value = text.past(at + 1);
    let end = needed(text, value, names, code, variable.kind, place)?;
    emit(code, Op::Store, variable.cell, place);
    Ok(text.past(end))
}

// NAME op= e ; which is NAME = NAME op e ;
fn modification(
    text: &Text,
    at: usize,
    operator: Operator,
    names: &BoundedStack<Name>,
    code: &mut BoundedStack<Instruction>,
) -> Result<usize, Refusal>
    requires { at + 1 < length text.now.tokens.now }
    ensures within { IfOk result (λ q. (at < q) × (q ≤ length text.now.tokens.now)) }
    ensures same { TranslatesModification text.now.source.now text.now.tokens.now at operator (seen names.now) (seen code.old) (seen code.new) result }
{
    let variable = variable_at(text, at, names)?;
    emit(code, Op::Load, variable.cell, text.token_at(at).place);
    let left = Typed {
        kind: variable.kind,
        end: at + 1,
    };
    let value = joined(text, left, operator, names, code, LOOSEST)?;
    emit(code, Op::Store, variable.cell, text.token_at(at + 1).place);
    Ok(text.past(value.end))
}

// e ;
fn evaluation(
    text: &Text,
    at: usize,
    names: &BoundedStack<Name>,
    code: &mut BoundedStack<Instruction>,
) -> Result<usize, Refusal>
    ensures within { IfOk result (λ q. (at < q) × (q ≤ length text.now.tokens.now)) }
    ensures same { TranslatesEvaluation text.now.source.now text.now.tokens.now at (seen names.now) (seen code.old) (seen code.new) result }
{
    let done = whole(text, at, names, code)?;
    if done.gives.is_some() {
        emit(code, Op::Pop, 0, text.token_at(done.end).place);
    }
    Ok(text.past(done.end))
}

// `break` or `continue`: the jump waits for the end of its loop.
fn jump(
    text: &Text,
    at: usize,
    jumps: &mut BoundedStack<Jump>,
    code: &mut BoundedStack<Instruction>,
    in_loop: bool,
) -> Result<usize, Refusal>
    requires { at < length text.now.tokens.now }
    ensures within { IfOk result (λ q. (at < q) × (q ≤ length text.now.tokens.now)) }
    ensures same { TranslatesJump text.now.tokens.now at in_loop (seen jumps.old) (seen code.old) (seen jumps.new) (seen code.new) result }
{
    let place = text.token_at(at).place;
    if !in_loop {
        return Err(Reason::OutsideLoop.at(place));
    }
    let leaves = text.is_at(at, Kind::Break);
    PendingJump::emit(code, Op::Jump, place).keep(jumps, leaves);
    Ok(text.past(at + 1))
}

// `return`, which has to give an int.
fn returning(
    text: &Text,
    at: usize,
    names: &BoundedStack<Name>,
    code: &mut BoundedStack<Instruction>,
) -> Result<usize, Refusal>
    requires { at < length text.now.tokens.now }
    ensures within { IfOk result (λ q. (at < q) × (q ≤ length text.now.tokens.now)) }
    ensures same { TranslatesReturn text.now.source.now text.now.tokens.now at (seen names.now) (seen code.old) (seen code.new) result }
{
    let place = text.token_at(at).place;
    if text.is_at(at + 1, Kind::Semicolon) {
        return Err(Reason::TypeMismatch.at(place));
    }
    let end = needed(text, at + 1, names, code, Scalar::Int, place)?;
    emit(code, Op::Return, 0, place);
    Ok(text.past(end))
}

// The end of a loop: back to its start. A `break` and the loop's own exit land behind it, a `continue` at `next`. It has the
// two stacks that it changes, and not the names.
fn close_loop(
    jumps: &mut BoundedStack<Jump>,
    mark: usize,
    code: &mut BoundedStack<Instruction>,
    exit: PendingJump,
    start: usize,
    next: usize,
    place: u32,
)
    ensures { Closes (seen jumps.old) mark (seen code.old) exit.at start next place (seen jumps.new) (seen code.new) }
{
    emit(code, Op::Jump, start, place);
    let end = code.len();
    land_all(jumps, mark, code, end, next);
    exit.land(code, end);
}

// The start of a turn of `for`: whether the variable is less than the stop, which has the next cell.
fn emit_test(code: &mut BoundedStack<Instruction>, cell: usize, place: u32)
    requires { cell ≤ 62 }
    ensures { Tests (seen code.old) cell place (seen code.new) }
{
    emit(code, Op::Tick, 0, place);
    emit(code, Op::Load, cell, place);
    emit(code, Op::Load, cell + 1, place);
    emit(code, Op::Less, 0, place);
}

// The end of a turn of `for`: the variable becomes one more.
fn emit_advance(code: &mut BoundedStack<Instruction>, cell: usize, place: u32)
    requires { cell ≤ 62 }
    ensures { Advances (seen code.old) cell place (seen code.new) }
{
    emit(code, Op::Load, cell, place);
    emit(code, Op::Push, 1, place);
    emit(code, Op::Add, 0, place);
    emit(code, Op::Store, cell, place);
}

// The start and the stop of a `for` at `at`, whose variable is at `name`; answers the place of the body.
fn bounds(
    text: &Text,
    at: usize,
    name: usize,
    names: &BoundedStack<Name>,
    code: &mut BoundedStack<Instruction>,
) -> Result<usize, Refusal>
    ensures within { IfOk result (λ q. (name < q) × (q ≤ length text.now.tokens.now)) }
    ensures same { TranslatesBounds text.now.source.now text.now.tokens.now at name (seen names.now) (seen code.old) (seen code.new) result }
{
    let first = text.past(text.past(name));
    let start = expression(text, first, names, code)?;
    let stop = expression(text, text.past(start.end), names, code)?;
    if start.kind == Scalar::Int && stop.kind == Scalar::Int {
        Ok(text.past(stop.end))
    } else {
        Err(Reason::TypeMismatch.at(text.token_at(at).place))
    }
}

impl Work<'_> {
    // A statement.
    #[cycle(statements)]
    fn statement(&mut self, text: &Text, at: usize, in_loop: bool) -> Result<usize, Refusal>
        ensures within { IfOk result (λ q. (at < q) × (q ≤ length text.now.tokens.now)) }
        ensures same { TranslatesStmt text.now.source.now text.now.tokens.now at in_loop (held self.old) (held self.new) result }
    {
        match text.lead_at(at) {
            Some(Lead::Block) => self.block(text, at, in_loop),
            Some(Lead::Definition) => definition(text, at, &mut self.names, &mut self.code),
            Some(Lead::Name) => {
                if !text.assigns_at(at + 1) {
                    return evaluation(text, at, &self.names, &mut self.code);
                }
                match modifier_of(text.token_at(at + 1).kind) {
                    Some(operator) => modification(text, at, operator, &self.names, &mut self.code),
                    None => assignment(text, at, &self.names, &mut self.code),
                }
            }
            Some(Lead::If) => self.conditional(text, at, in_loop),
            Some(Lead::While) => self.while_loop(text, at),
            Some(Lead::Do) => self.do_loop(text, at),
            Some(Lead::For) => self.for_loop(text, at),
            Some(Lead::Jump) => jump(text, at, &mut self.jumps, &mut self.code, in_loop),
            Some(Lead::Return) => returning(text, at, &self.names, &mut self.code),
            Some(Lead::Expression) => evaluation(text, at, &self.names, &mut self.code),
            None => Err(unexpected(text, at)),
        }
    }

    // Statements up to the brace that closes them; answers its place in the tokens.
    #[cycle(statements)]
    pub(crate) fn statements(
        &mut self,
        text: &Text,
        at: usize,
        in_loop: bool,
    ) -> Result<usize, Refusal>
        ensures within { IfOk result (λ q. (at ≤ q) × (q < length text.now.tokens.now)) }
        ensures same { TranslatesStmts text.now.source.now text.now.tokens.now at in_loop (held self.old) (held self.new) result }
    {
        let mut end = at;
        'statements: while !text.is_at(end, Kind::CloseBrace) {
            end = self.statement(text, end, in_loop)?;
        }
        Ok(end)
    }

    // Statements in braces, in a level of their own.
    // Like `body` only in that a level is entered and left: with a closure over the work, what the work holds then is hidden.
    #[cycle(statements)]
    fn block(&mut self, text: &Text, at: usize, in_loop: bool) -> Result<usize, Refusal>
        requires { at < length text.now.tokens.now }
        ensures within { IfOk result (λ q. (at < q) × (q ≤ length text.now.tokens.now)) }
        ensures same { TranslatesBlock text.now.source.now text.now.tokens.now at in_loop (held self.old) (held self.new) result }
    {
        let mark = self.names.len();
        enter(&mut self.names, Entry::Level);
        let close = self.statements(text, at + 1, in_loop)?;
        self.names.truncate(mark);
        Ok(close + 1)
    }

    // The body of a statement, in a level of its own.
    #[cycle(statements)]
    fn body(&mut self, text: &Text, at: usize, in_loop: bool) -> Result<usize, Refusal>
        ensures within { IfOk result (λ q. (at < q) × (q ≤ length text.now.tokens.now)) }
        ensures same { TranslatesBody text.now.source.now text.now.tokens.now at in_loop (held self.old) (held self.new) result }
    {
        let mark = self.names.len();
        enter(&mut self.names, Entry::Level);
        let end = self.statement(text, at, in_loop)?;
        self.names.truncate(mark);
        Ok(end)
    }

    // if ( e ) s, perhaps with an `else`.
    #[cycle(statements)]
    fn conditional(&mut self, text: &Text, at: usize, in_loop: bool) -> Result<usize, Refusal>
        requires { at < length text.now.tokens.now }
        ensures within { IfOk result (λ q. (at < q) × (q ≤ length text.now.tokens.now)) }
        ensures same { TranslatesConditional text.now.source.now text.now.tokens.now at in_loop (held self.old) (held self.new) result }
    {
        let place = text.token_at(at).place;
        let inside = condition(text, at + 1, &self.names, &mut self.code, place)?;
        let skip = PendingJump::emit(&mut self.code, Op::JumpIfZero, place);
        let (skip, end) = skip.after(self.body(text, inside, in_loop))?;
        if text.is_at(end, Kind::Else) {
            self.otherwise(text, end, in_loop, skip, place)
        } else {
            let after = self.code.len();
            skip.land(&mut self.code, after);
            Ok(end)
        }
    }

    // `else` and its body: `skip` lands at the body, and what stood before it jumps over the body.
    #[cycle(statements)]
    fn otherwise(
        &mut self,
        text: &Text,
        at: usize,
        in_loop: bool,
        skip: PendingJump,
        place: u32,
    ) -> Result<usize, Refusal>
        requires { at < length text.now.tokens.now }
        ensures within { IfOk result (λ q. (at < q) × (q ≤ length text.now.tokens.now)) }
        ensures same { TranslatesElse text.now.source.now text.now.tokens.now at in_loop skip.at place (held self.old) (held self.new) result }
    {
        let done = PendingJump::emit(&mut self.code, Op::Jump, place);
        let start = self.code.len();
        skip.land(&mut self.code, start);
        let (done, end) = done.after(self.body(text, at + 1, in_loop))?;
        let after = self.code.len();
        done.land(&mut self.code, after);
        Ok(end)
    }

    // while ( e ) s
    #[cycle(statements)]
    fn while_loop(&mut self, text: &Text, at: usize) -> Result<usize, Refusal>
        requires { at < length text.now.tokens.now }
        ensures within { IfOk result (λ q. (at < q) × (q ≤ length text.now.tokens.now)) }
        ensures same { TranslatesWhile text.now.source.now text.now.tokens.now at (held self.old) (held self.new) result }
    {
        let place = text.token_at(at).place;
        let start = self.code.len();
        let mark = self.jumps.len();
        emit(&mut self.code, Op::Tick, 0, place);
        let inside = condition(text, at + 1, &self.names, &mut self.code, place)?;
        let exit = PendingJump::emit(&mut self.code, Op::JumpIfZero, place);
        let (exit, end) = exit.after(self.body(text, inside, true))?;
        close_loop(
            &mut self.jumps,
            mark,
            &mut self.code,
            exit,
            start,
            start,
            place,
        );
        Ok(end)
    }

    // do s while ( e ) ;
    #[cycle(statements)]
    fn do_loop(&mut self, text: &Text, at: usize) -> Result<usize, Refusal>
        requires { at < length text.now.tokens.now }
        ensures within { IfOk result (λ q. (at < q) × (q ≤ length text.now.tokens.now)) }
        ensures same { TranslatesDo text.now.source.now text.now.tokens.now at (held self.old) (held self.new) result }
    {
        let place = text.token_at(at).place;
        let start = self.code.len();
        let mark = self.jumps.len();
        emit(&mut self.code, Op::Tick, 0, place);
        let end = self.body(text, at + 1, true)?;
        let next = self.code.len();
        let semicolon = condition(text, text.past(end), &self.names, &mut self.code, place)?;
        let exit = PendingJump::emit(&mut self.code, Op::JumpIfZero, place);
        close_loop(
            &mut self.jumps,
            mark,
            &mut self.code,
            exit,
            start,
            next,
            place,
        );
        Ok(text.past(semicolon))
    }

    // for ( int NAME = e to f ) s
    #[cycle(statements)]
    fn for_loop(&mut self, text: &Text, at: usize) -> Result<usize, Refusal>
        requires { at < length text.now.tokens.now }
        ensures within { IfOk result (λ q. (at < q) × (q ≤ length text.now.tokens.now)) }
        ensures same { TranslatesFor text.now.source.now text.now.tokens.now at (held self.old) (held self.new) result }
    {
        let name = text.past(text.past(at + 1));
        let inside = bounds(text, at, name, &self.names, &mut self.code)?;
        let name_place = text.token_at(name).place;
        let mark = self.names.len();
        let cell = cells_in(&self.names, mark);
        if cell > CELLS_BEFORE_FOR {
            return Err(Reason::TooManyCells.at(name_place));
        }
        enter(&mut self.names, Entry::Level);
        bind(text, name, Scalar::Int, &mut self.names);
        enter(&mut self.names, Entry::Stop);
        emit(&mut self.code, Op::Store, cell + 1, name_place);
        emit(&mut self.code, Op::Store, cell, name_place);
        let place = text.token_at(at).place;
        let end = self.counting(text, inside, cell, place)?;
        self.names.truncate(mark);
        Ok(end)
    }

    // The turns of a `for` whose variable has the cell, and its body.
    #[cycle(statements)]
    fn counting(
        &mut self,
        text: &Text,
        at: usize,
        cell: usize,
        place: u32,
    ) -> Result<usize, Refusal>
        requires { cell ≤ 62 }
        ensures within { IfOk result (λ q. (at < q) × (q ≤ length text.now.tokens.now)) }
        ensures same { TranslatesCount text.now.source.now text.now.tokens.now at cell place (held self.old) (held self.new) result }
    {
        let start = self.code.len();
        let mark = self.jumps.len();
        emit_test(&mut self.code, cell, place);
        let exit = PendingJump::emit(&mut self.code, Op::JumpIfZero, place);
        let (exit, end) = exit.after(self.body(text, at, true))?;
        let next = self.code.len();
        emit_advance(&mut self.code, cell, place);
        close_loop(
            &mut self.jumps,
            mark,
            &mut self.code,
            exit,
            start,
            next,
            place,
        );
        Ok(end)
    }
}
