// The verdict on tokens, with the place of what is wrong.
ghost use Rattle.std.specs.Prelude.{◌≡◌, length};
ghost use Rattle.lexer.specs.Reading.{lexemes};
ghost use Rattle.refusal.specs.Told.{number_of, told};
ghost use Rattle.parser.specs.Steps.{place_by, fault_number, fault_at};
ghost use Rattle.parser.specs.Verdict.{Verdict, OneVerdict};

use crate::fault::Fault;
use crate::script::whole;
use lexer::Token;
use lookahead::Text;
use refusal::{Reason, Refusal};

// The place of the token at `at`, or the source's end where there is none.
fn place_at(text: Text, at: usize) -> u32
    ensures { result ≡ place_by (lexemes text.entry.source.now text.entry.tokens.now) (length text.entry.source.now) at }
{
    let end = u32::try_from(text.source.len()).unwrap_or(u32::MAX);
    text.tokens.get(at).map_or(end, |token| token.place)
}

// A fault as it is told.
fn refusal_of(text: Text, fault: Fault) -> Refusal
    ensures number { number_of result.reason ≡ fault_number fault }
    ensures place { result.place ≡ place_by (lexemes text.entry.source.now text.entry.tokens.now) (length text.entry.source.now) (fault_at fault) }
{
    match fault {
        Fault::Unexpected(at) => Reason::UnexpectedToken.at(place_at(text, at)),
        Fault::TooDeep(at) => Reason::TooDeep.at(place_at(text, at)),
    }
}

// Whether the tokens are a script's whose parts lie no deeper than 32; the first token that is wrong is refused: one with
// which no script goes on, or one at which something deeper begins. Where more was to come the place is the source's end.
pub fn parse(source: &[u8], tokens: &[Token]) -> Result<(), Refusal>
    ensures verdict { Verdict (lexemes source.now tokens.now) (length source.now) (told result) }
    ensures only { OneVerdict }
{
    // The closure takes the two lists: of what one that takes a text answers, the proof learns nothing.
    whole(&Text { source, tokens }).map_err(|fault| refusal_of(Text { source, tokens }, fault))
}
