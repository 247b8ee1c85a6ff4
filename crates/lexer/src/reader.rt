// The reader: what stands between tokens is passed over byte by byte, then a token is scanned.
ghost use Rattle.std.specs.Prelude.{◌≡◌, ◌+◌, ◌<◌, ◌≤◌, length};
ghost use Rattle.lexer.specs.declared.reader.State.TheVariants.{Code};

use crate::class::{Class, class_of};
use crate::kind::Token;
use crate::scan::token_at;
use refusal::{Reason, Refusal};

// Where the reader is between tokens.
#[derive(Clone, Copy, PartialEq, Eq, Debug)]
pub(crate) enum State {
    Code,
    LineComment,
    // With the place where the comment began.
    LongComment(u32),
}

// A source, the place that its reader has come to, and the state there.
#[derive(Clone, Copy)]
pub(crate) struct Reader<'a> {
    source: &'a [u8],
    at: usize,
    state: State,
    ghost within: { at ≤ length source.now },
    ghost short: { length source.now ≤ 16384 },
}

impl<'a> Reader<'a> {
    ghost use Rattle.lexer.specs.Scans.{Passed, Stepped, Next};

    // A reader at the start of a source.
    pub(crate) fn new(source: &'a [u8]) -> Reader<'a>
        requires { length source.now ≤ 16384 }
        ensures source { result.source ≡ source.entry }
        ensures at { result.at ≡ 0 }
        ensures state { result.state ≡ Code }
    {
        Reader {
            source,
            at: 0,
            state: State::Code,
        }
    }

    // Goes on by so many bytes, into a state.
    fn pass(&mut self, bytes: usize, state: State)
        requires { self.old.at + bytes ≤ length self.old.source.now }
        ensures { Passed self.old self.new bytes state }
    {
        self.at += bytes;
        self.state = state;
    }

    // Passes over what the next byte begins, unless it begins a token: that is the answer.
    fn step(&mut self) -> bool
        requires { self.old.at < length self.old.source.now }
        ensures { Stepped self.old self.new result }
    {
        let rest = &self.source[self.at..];
        // Tried: the arms of code first; each blank then takes 3 of the processor's instructions more. Without the tests of a
        // first byte alone, each mark takes 9 more, and each byte of a long comment 2.
        match (self.state, class_of(rest[0])) {
            (State::LineComment, _) if rest[0] == b'\n' => self.pass(1, State::Code),
            (State::LineComment, _) => self.pass(1, State::LineComment),
            (State::LongComment(_), _) if rest[0] == b'*' && rest.starts_with(b"*/") => {
                self.pass(2, State::Code)
            }
            (State::LongComment(opened), _) => self.pass(1, State::LongComment(opened)),
            (State::Code, Class::Blank) => self.pass(1, State::Code),
            (State::Code, Class::Mark) if rest[0] != b'/' => return true,
            (State::Code, Class::Mark) if rest.starts_with(b"//") => {
                self.pass(2, State::LineComment)
            }
            (State::Code, Class::Mark) if rest.starts_with(b"/*") => {
                self.pass(2, State::LongComment(self.at as u32))
            }
            (State::Code, _) => return true,
        }
        false
    }

    // The next token, or nothing at the end of the source.
    pub(crate) fn next(&mut self) -> Result<Option<Token>, Refusal>
        ensures { Next self.old self.new result }
    {
        'bytes: while self.at < self.source.len() {
            if self.step() {
                let token = token_at(self.source, self.at)?;
                self.pass(token.length as usize, State::Code);
                return Ok(Some(token));
            }
        }
        match self.state {
            State::LongComment(place) => Err(Reason::UnclosedComment.at(place)),
            State::Code | State::LineComment => Ok(None),
        }
    }
}
