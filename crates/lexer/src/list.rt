// Reading a source into a token list, and the text of its tokens.
ghost use Rattle.std.specs.Prelude.{◌≡◌, ◌≤◌, length};
ghost use Rattle.std.specs.Option.{option_map};
ghost use Rattle.refusal.specs.Told.{told};
ghost use Rattle.lexer.specs.Laws.{Decided};
ghost use Rattle.lexer.specs.Scans.{stored_told, stored_list};
ghost use Rattle.lexer.specs.Reading.{reading, told_of, written, answer, list_after, text_of, text_at};

use crate::kind::Token;
use crate::reader::Reader;
use refusal::{Reason, Refusal};

// The most bytes of a source.
pub const SOURCE_LIMIT: usize = 16_384;

// The most tokens of a source: a token list has at least as many records.
pub const TOKEN_LIMIT: usize = 1_024;

// Puts a token after the first `count` records, and answers how many they are then. The list is the caller's, so the count
// stands beside it.
fn store(tokens: &mut [Token], count: usize, token: Token) -> Result<usize, Refusal>
    requires { 1024 ≤ length tokens.old }
    ensures answer { told result ≡ stored_told count token }
    ensures list { tokens.new ≡ stored_list tokens.old count token }
{
    if count >= TOKEN_LIMIT {
        return Err(Reason::TooManyTokens.at(token.place));
    }
    tokens[count] = token;
    Ok(count + 1)
}

// Reads the tokens of a source that is not too long into a list that is long enough.
fn fill(source: &[u8], tokens: &mut [Token]) -> Result<usize, Refusal>
    requires short { length source.now ≤ 16384 }
    requires long { 1024 ≤ length tokens.old }
    ensures answer { told result ≡ told_of (reading source.now).tokens (reading source.now).fault }
    ensures list { tokens.new ≡ written (reading source.now).tokens tokens.old }
{
    // No `for`: after a fault nothing is read on, and an iterator would have to say what comes then.
    let mut reader = Reader::new(source);
    let mut count = 0;
    'tokens: while let Some(token) = reader.next()? {
        count = store(tokens, count, token)?;
    }
    Ok(count)
}

// Reads the tokens of a source into the first records of the list, and answers how many they are. A fault is refused with
// its place; the tokens before it stand in the list then. Further records are left as they were.
pub fn read(source: &[u8], tokens: &mut [Token]) -> Result<usize, Refusal>
    ensures answer { told result ≡ answer source.now (length tokens.old) }
    ensures list { tokens.new ≡ list_after source.now tokens.old }
    ensures decided { Decided source.now }
{
    if source.len() > SOURCE_LIMIT {
        return Err(Reason::SourceTooLong.into());
    }
    if tokens.len() < TOKEN_LIMIT {
        return Err(Reason::TokenListShort.into());
    }
    fill(source, tokens)
}

// The part of the source that a token names, if it exists.
fn part<'a>(source: &'a [u8], token: Token) -> Option<&'a [u8]>
    ensures { option_map (λ x. x.now) result ≡ text_of source.now token }
{
    let start = token.place as usize;
    let end = start + token.length as usize;
    source.get(start..end)
}

// The part of the source that token k names, or nothing if there is no such record or part.
pub fn text<'a>(source: &'a [u8], tokens: &[Token], k: usize) -> Option<&'a [u8]>
    ensures { option_map (λ x. x.now) result ≡ text_at source.now tokens.now k }
{
    part(source, *tokens.get(k)?)
}
