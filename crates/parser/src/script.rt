// Scripts: externs and globals, then main.
ghost use Rattle.std.specs.Prelude.{◌≡◌};
ghost use Rattle.parser.specs.Steps.{Reads, one, an_initializer, parameters, an_extern, main_rest, ReadsItem, ReadsScript, outcome_of, a_script};
ghost use Rattle.lexer.specs.Reading.{lexemes};
ghost use Rattle.meaning.proofs.Judge.{judge};
ghost use Rattle.meaning.proofs.Stack.{a_constant, a_result};

use crate::cursor::Cursor;
use crate::fault::Fault;
use lexer::Kind;
use lookahead::Text;

impl<'a> Cursor<'a> {
    // Passes a constant.
    fn constant(self) -> Result<Cursor<'a>, Fault>
        ensures { Reads (one a_constant) self.entry result }
    {
        self.pass_if(self.text.constant_at(self.at))
    }

    // Passes what an extern gives.
    fn given(self) -> Result<Cursor<'a>, Fault>
        ensures { Reads (one a_result) self.entry result }
    {
        self.pass_if(self.text.result_at(self.at))
    }

    // A constant for a global, from `=` to `;`.
    fn initializer(self) -> Result<Cursor<'a>, Fault>
        ensures { Reads an_initializer self.entry result }
    {
        self.expect(Kind::Assign)?
            .constant()?
            .expect(Kind::Semicolon)
    }

    // What an extern takes, and the bracket that closes it.
    fn parameter(self) -> Result<Cursor<'a>, Fault>
        ensures { Reads parameters self.entry result }
    {
        if self.is(Kind::CloseParen) {
            Ok(self.next())
        } else {
            self.pass_if(self.text.scalar_at(self.at))?
                .expect(Kind::Name)?
                .expect(Kind::CloseParen)
        }
    }

    // An extern after its keyword.
    fn external(self) -> Result<Cursor<'a>, Fault>
        ensures { Reads an_extern self.entry result }
    {
        self.given()?
            .expect(Kind::Name)?
            .expect(Kind::OpenParen)?
            .parameter()?
            .expect(Kind::Semicolon)
    }

    // An extern or a global, where main does not begin.
    fn item(self) -> Result<Cursor<'a>, Fault>
        ensures { ReadsItem self.entry result }
    {
        if self.is(Kind::Extern) {
            return self.next().external();
        }
        let start = Cursor {
            at: self.text.past_static(self.at),
            ..self
        };
        start
            .pass_if(start.text.scalar_at(start.at))?
            .expect(Kind::Name)?
            .initializer()
    }

    // Main from its closing bracket on.
    fn main_rest(self) -> Result<Cursor<'a>, Fault>
        ensures { Reads main_rest self.entry result }
    {
        self.expect(Kind::CloseParen)?
            .expect(Kind::OpenBrace)?
            .block(1)
    }

    // A script, from its first token on.
    fn script(self) -> Result<Cursor<'a>, Fault>
        ensures { ReadsScript self.entry result }
    {
        let mut item = self;
        'items: loop {
            match item.text.past_main(item.at) {
                Some(at) => return Cursor { at, ..item }.main_rest(),
                None => item = item.item()?,
            }
        }
    }
}

// A script, and nothing after it.
pub(crate) fn whole(text: &Text) -> Result<(), Fault>
    ensures { judge a_script 0 (lexemes text.now.source.now text.now.tokens.now) ≡ outcome_of result }
{
    let end = Cursor { text, at: 0 }.script()?;
    if end.at < end.text.tokens.len() {
        Err(end.unexpected())
    } else {
        Ok(())
    }
}
