// Expressions: operands, and the operators between them by how loosely they bind.
ghost use Rattle.std.specs.Prelude.{◌≤◌};
ghost use Rattle.parser.specs.Steps.{Reads, operands, an_operand, an_expression, the_arguments, prefixed_by, in_brackets, called_with};

use crate::cursor::Cursor;
use crate::fault::Fault;
use lexer::Kind;
use lookahead::{LOOSEST, Start};

impl<'a> Cursor<'a> {
    // An expression at the depth.
    #[cycle(expressions)]
    pub(crate) fn expression(self, depth: u32) -> Result<Cursor<'a>, Fault>
        ensures { Reads (an_expression depth) self.entry result }
    {
        self.binary(depth, LOOSEST)
    }

    // Operands joined by operators that bind no more loosely than `loosest`.
    #[cycle(expressions)]
    fn binary(self, depth: u32, loosest: u32) -> Result<Cursor<'a>, Fault>
        requires { loosest ≤ 6 }
        ensures { Reads (operands loosest depth) self.entry result }
    {
        if loosest == 0 {
            // Taken apart and put together again: where the operand's answer is passed on as it is, every answer lies in one
            // place in memory and is copied twice a level, and texts take 1.2 to 1.7 times as long.
            return Ok(self.operand(depth)?);
        }
        let mut end = self.binary(depth, loosest - 1)?;
        'operands: while end.text.looseness_at(end.at) == Some(loosest) {
            end = end.next().binary(depth, loosest - 1)?;
        }
        Ok(end)
    }

    // A constant, a variable, a call, an expression in brackets, or a prefix operator with its operand.
    #[cycle(expressions)]
    fn operand(self, depth: u32) -> Result<Cursor<'a>, Fault>
        ensures { Reads (an_operand depth) self.entry result }
    {
        let start = self.admit(self.text.start_at(self.at), depth)?;
        let next = self.next();
        match start {
            Start::Constant => Ok(next),
            Start::Prefix => next.prefixed(depth),
            Start::Bracket => next.bracketed(depth),
            Start::Name => {
                if next.is(Kind::OpenParen) {
                    next.next().called(depth)
                } else {
                    Ok(next)
                }
            }
        }
    }

    // What a prefix operator stands before.
    #[cycle(expressions)]
    fn prefixed(self, depth: u32) -> Result<Cursor<'a>, Fault>
        requires { depth ≤ 32 }
        ensures { Reads (prefixed_by depth) self.entry result }
    {
        self.operand(depth + 1)
    }

    // What an opening bracket begins, with the bracket that closes it.
    #[cycle(expressions)]
    fn bracketed(self, depth: u32) -> Result<Cursor<'a>, Fault>
        requires { depth ≤ 32 }
        ensures { Reads (in_brackets depth) self.entry result }
    {
        self.expression(depth + 1)?.expect(Kind::CloseParen)
    }

    // What follows the opening bracket of a call.
    #[cycle(expressions)]
    fn called(self, depth: u32) -> Result<Cursor<'a>, Fault>
        requires { depth ≤ 32 }
        ensures { Reads (called_with depth) self.entry result }
    {
        self.arguments(depth + 1)
    }

    // The arguments of a call, and the bracket that closes them.
    #[cycle(expressions)]
    fn arguments(self, depth: u32) -> Result<Cursor<'a>, Fault>
        ensures { Reads (the_arguments depth) self.entry result }
    {
        if self.is(Kind::CloseParen) {
            return Ok(self.next());
        }
        let mut end = self.expression(depth)?;
        'arguments: while end.is(Kind::Comma) {
            end = end.next().expression(depth)?;
        }
        end.expect(Kind::CloseParen)
    }
}
