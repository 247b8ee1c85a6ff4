// A place among the tokens, and the steps onward from it.
ghost use Rattle.std.specs.Prelude.{◌≡◌, ◌+◌, ◌<◌, ◌≤◌, true, false, Some, length, IfOk};
ghost use Rattle.std.specs.Result.{MatchResult};
ghost use Rattle.lookahead.specs.Seen.{seen, is_kind};
ghost use Rattle.meaning.proofs.Stack.{Sym};
ghost use Rattle.parser.specs.Steps.{Onward, Parses, Wants, one, admission, past};

use crate::fault::Fault;
use lexer::Kind;
use lookahead::Text;

// The deepest that a statement or an expression may lie.
const DEEPEST: u32 = 32;

// A text, and the place of the next of its tokens. The text is lent: two words pass in registers. A cursor that holds the
// text itself passes through memory, five words at each level of an expression, and texts take up to 1.9 times as long.
#[derive(Clone, Copy)]
pub(crate) struct Cursor<'a> {
    pub(crate) text: &'a Text<'a>,
    pub(crate) at: usize,
}

impl<'a> Cursor<'a> {
    // The place after the next token.
    pub(crate) fn next(self) -> Cursor<'a>
        requires { self.at < length self.text.now.tokens.now }
        ensures { result ≡ past self.entry }
    {
        Cursor {
            // Tried: `self.at + 1`; behind the reference, the check does not find that the tokens are few enough for it.
            at: self.text.past(self.at),
            ..self
        }
    }

    // Whether the next token is of the kind.
    pub(crate) fn is(self, kind: Kind) -> bool
        ensures same { result ≡ is_kind (seen self.entry.text.now.tokens.now self.entry.at) kind }
        ensures inside { result ≡ true → self.entry.at < length self.entry.text.now.tokens.now }
    {
        self.text.is_at(self.at, kind)
    }

    // The fault that no script goes on with the next token.
    pub(crate) fn unexpected(self) -> Fault
        ensures { result ≡ Fault.Unexpected self.entry.at }
    {
        Fault::Unexpected(self.at)
    }

    // Passes the next token, if it fits.
    pub(crate) fn pass_if(self, fits: bool) -> Result<Cursor<'a>, Fault>
        requires { fits ≡ true → self.at < length self.text.now.tokens.now }
        ensures { MatchResult result (λ q. (fits ≡ true) × (q ≡ past self.entry)) (λ f. (fits ≡ false) × (f ≡ Fault.Unexpected self.entry.at)) }
    {
        if fits {
            Ok(self.next())
        } else {
            Err(self.unexpected())
        }
    }

    // Passes a token of the kind. The place is a clause of its own: callers need it where they name no symbol.
    pub(crate) fn expect(self, kind: Kind) -> Result<Cursor<'a>, Fault>
        ensures onward { Onward self.entry result }
        ensures same { (A : Sym) → Wants A kind → Parses (one A) self.entry result }
    {
        self.pass_if(self.is(kind))
    }

    // What begins here at the depth, if it may. Where nothing begins, that is the fault at any depth.
    pub(crate) fn admit<T: Copy>(self, begins: Option<T>, depth: u32) -> Result<T, Fault>
        ensures same { result ≡ admission begins self.entry.at depth }
        ensures begun { IfOk result (λ x. (begins ≡ Some x) × (depth ≤ 32)) }
    {
        let what = begins.ok_or(self.unexpected())?;
        if depth > DEEPEST {
            Err(Fault::TooDeep(self.at))
        } else {
            Ok(what)
        }
    }
}
