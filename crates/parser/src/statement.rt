// Statements, each with the depth it lies at.
ghost use Rattle.std.specs.Prelude.{◌≤◌};
ghost use Rattle.parser.specs.Steps.{Reads, a_statement, terminated, a_condition, a_block, in_braces, a_definition, a_branch, a_repetition, a_round, a_count};

use crate::cursor::Cursor;
use crate::fault::Fault;
use lexer::Kind;
use lookahead::Lead;

impl<'a> Cursor<'a> {
    // An expression and a semicolon.
    fn ended(self, depth: u32) -> Result<Cursor<'a>, Fault>
        ensures { Reads (terminated depth) self.entry result }
    {
        self.expression(depth)?.expect(Kind::Semicolon)
    }

    // An expression in the brackets of a statement.
    fn condition(self, depth: u32) -> Result<Cursor<'a>, Fault>
        ensures { Reads (a_condition depth) self.entry result }
    {
        self.expect(Kind::OpenParen)?
            .expression(depth)?
            .expect(Kind::CloseParen)
    }

    // A definition after its type.
    fn definition(self, depth: u32) -> Result<Cursor<'a>, Fault>
        ensures { Reads (a_definition depth) self.entry result }
    {
        self.expect(Kind::Name)?.expect(Kind::Assign)?.ended(depth)
    }

    // A statement at the depth.
    #[cycle(statements)]
    fn statement(self, depth: u32) -> Result<Cursor<'a>, Fault>
        ensures { Reads (a_statement depth) self.entry result }
    {
        let lead = self.admit(self.text.lead_at(self.at), depth)?;
        let next = self.next();
        match lead {
            Lead::Block => next.nested(depth),
            Lead::Definition => next.definition(depth),
            Lead::Name => {
                if next.text.assigns_at(next.at) {
                    next.next().ended(depth)
                } else {
                    self.ended(depth)
                }
            }
            Lead::If => next.conditional(depth),
            Lead::While => next.while_loop(depth),
            Lead::Do => next.do_loop(depth),
            Lead::For => next.for_loop(depth),
            Lead::Jump => next.expect(Kind::Semicolon),
            Lead::Return => {
                if next.is(Kind::Semicolon) {
                    Ok(next.next())
                } else {
                    next.ended(depth)
                }
            }
            Lead::Expression => self.ended(depth),
        }
    }

    // Statements at the depth, and the brace that closes them.
    #[cycle(statements)]
    pub(crate) fn block(self, depth: u32) -> Result<Cursor<'a>, Fault>
        ensures { Reads (a_block depth) self.entry result }
    {
        let mut end = self;
        'statements: while !end.is(Kind::CloseBrace) {
            end = end.statement(depth)?;
        }
        Ok(end.next())
    }

    // What the opening brace of a block begins.
    #[cycle(statements)]
    fn nested(self, depth: u32) -> Result<Cursor<'a>, Fault>
        requires { depth ≤ 32 }
        ensures { Reads (in_braces depth) self.entry result }
    {
        self.block(depth + 1)
    }

    // What follows `if`: the condition, the body, and perhaps another after `else`.
    #[cycle(statements)]
    fn conditional(self, depth: u32) -> Result<Cursor<'a>, Fault>
        requires { depth ≤ 32 }
        ensures { Reads (a_branch depth) self.entry result }
    {
        let end = self.condition(depth)?.statement(depth + 1)?;
        if end.is(Kind::Else) {
            end.next().statement(depth + 1)
        } else {
            Ok(end)
        }
    }

    // What follows `while`: the condition and the body.
    #[cycle(statements)]
    fn while_loop(self, depth: u32) -> Result<Cursor<'a>, Fault>
        requires { depth ≤ 32 }
        ensures { Reads (a_repetition depth) self.entry result }
    {
        self.condition(depth)?.statement(depth + 1)
    }

    // What follows `do`: the body, and the condition with its semicolon.
    #[cycle(statements)]
    fn do_loop(self, depth: u32) -> Result<Cursor<'a>, Fault>
        requires { depth ≤ 32 }
        ensures { Reads (a_round depth) self.entry result }
    {
        let end = self
            .statement(depth + 1)?
            .expect(Kind::While)?
            .condition(depth)?;
        end.expect(Kind::Semicolon)
    }

    // What follows `for`: the variable with its start and stop in brackets, and the body.
    #[cycle(statements)]
    fn for_loop(self, depth: u32) -> Result<Cursor<'a>, Fault>
        requires { depth ≤ 32 }
        ensures { Reads (a_count depth) self.entry result }
    {
        let body = self
            .expect(Kind::OpenParen)?
            .expect(Kind::Int)?
            .expect(Kind::Name)?
            .expect(Kind::Assign)?
            .expression(depth)?
            .expect(Kind::To)?
            .expression(depth)?
            .expect(Kind::CloseParen)?;
        body.statement(depth + 1)
    }
}
