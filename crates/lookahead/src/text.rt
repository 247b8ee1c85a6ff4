// A source with its tokens, and the kind of the token at a place.
ghost use Rattle.std.specs.Prelude.{◌≡◌, ◌+◌, ◌<◌, ◌≤◌, true, [], length, take, drop, slice_get, is_some, Some};
ghost use Rattle.lookahead.specs.Seen.{seen, kind_of, is_kind, empty_token};
ghost use Rattle.lexer.specs.declared.kind.Token.{Token};

use crate::head::part;
use lexer::{Kind, Token};

// A source and its tokens.
#[derive(Clone, Copy)]
pub struct Text<'a> {
    pub source: &'a [u8],
    pub tokens: &'a [Token],
}

// The kind of a token; nothing for a record that is no token's: a keyword, mark or name has no value.
fn kind_of(token: Token) -> Option<Kind>
    ensures { result ≡ kind_of token }
{
    match token.kind {
        Kind::Number | Kind::Character => Some(token.kind),
        kind => (token.value == 0).then_some(kind),
    }
}

impl<'a> Text<'a> {
    // The kind of the token at `at`, or nothing where the tokens have ended.
    pub fn kind_at(&self, at: usize) -> Option<Kind>
        ensures same { result ≡ seen self.now.tokens.now at }
        ensures inside { is_some result ≡ true → at < length self.now.tokens.now }
    {
        kind_of(*self.tokens.get(at)?)
    }

    // Whether the token at `at` is of the kind.
    #[tactic(auto, using(crate::proofs::Tags::same_kind))]
    pub fn is_at(&self, at: usize, kind: Kind) -> bool
        ensures same { result ≡ is_kind (seen self.now.tokens.now at) kind }
        ensures inside { result ≡ true → at < length self.now.tokens.now }
    {
        self.kind_at(at) == Some(kind)
    }

    // The token at `at`, or an empty record where the tokens have ended.
    pub fn token_at(&self, at: usize) -> Token
        ensures there { at < length self.now.tokens.now → slice_get self.now.tokens.now at ≡ Some result }
        ensures ended { length self.now.tokens.now ≤ at → result ≡ empty_token }
    {
        self.tokens.get(at).copied().unwrap_or_default()
    }

    // The bytes of the source that the token at `at` names, as many as there are.
    pub fn bytes_at(&self, at: usize) -> &'a [u8]
        ensures there { (t : Token) → slice_get self.now.tokens.now at ≡ Some t → result.now ≡ take t.length (drop t.place self.now.source.now) }
        ensures ended { length self.now.tokens.now ≤ at → result.now ≡ [] }
    {
        let token = self.token_at(at);
        part(self.source, token.place as usize, token.length as usize)
    }

    // The place in the list after the token at `at`, if there is one.
    pub fn past(&self, at: usize) -> usize
        ensures next { at < length self.now.tokens.now → result ≡ at + 1 }
        ensures ended { length self.now.tokens.now ≤ at → result ≡ at }
        ensures near { at ≤ result }
        ensures within { at ≤ length self.now.tokens.now → result ≤ length self.now.tokens.now }
    {
        if at < self.tokens.len() { at + 1 } else { at }
    }
}
