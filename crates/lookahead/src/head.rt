// The beginning of main, and the bytes of a name.
ghost use Rattle.std.specs.Prelude.{◌≡◌, ◌<◌, ◌≤◌, true, length, take, drop};
ghost use Rattle.lookahead.specs.Seen.{past_static, is_main, past_main};

use crate::text::Text;
use lexer::Kind;

// The part of the source from `place` on, of so many bytes or as many as there are.
pub fn part(source: &[u8], place: usize, count: usize) -> &[u8]
    ensures { result.now ≡ take count (drop place source.now) }
{
    let rest = &source[place.min(source.len())..];
    &rest[..count.min(rest.len())]
}

impl<'a> Text<'a> {
    // The place after `static`, where it stands at `at`.
    pub fn past_static(&self, at: usize) -> usize
        ensures same { result ≡ past_static self.now.tokens.now at }
        ensures near { at ≤ result }
    {
        if self.is_at(at, Kind::Static) {
            at + 1
        } else {
            at
        }
    }

    // Whether the token at `at` is the name `main`.
    fn is_main(&self, at: usize) -> bool
        ensures same { result ≡ is_main self.now.source.now self.now.tokens.now at }
        ensures inside { result ≡ true → at < length self.now.tokens.now }
    {
        if self.is_at(at, Kind::Name) {
            // Tried: `bytes_at`; the check does not find that its answer is the name of this token.
            let token = self.tokens[at];
            part(self.source, token.place as usize, token.length as usize) == b"main".as_slice()
        } else {
            false
        }
    }

    // The place after `[static] int main (`, if that stands at `at`.
    pub fn past_main(&self, at: usize) -> Option<usize>
        ensures { result ≡ past_main self.now.source.now self.now.tokens.now at }
    {
        let start = self.past_static(at);
        let begins = self.is_at(start, Kind::Int)
            && self.is_main(start + 1)
            && self.is_at(start + 2, Kind::OpenParen);
        begins.then(|| start + 3)
    }
}
