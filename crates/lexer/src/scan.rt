// The token at the front of the rest of a source.
ghost use Rattle.std.specs.Prelude.{◌≡◌, ◌+◌, ◌<◌, ◌≤◌, min, length, take, drop, slice_index};
ghost use Rattle.std.specs.Option.{ok_or};
ghost use Rattle.std.specs.List.{prefix_len};
ghost use Rattle.refusal.specs.declared.reason.Reason.TheVariants.{BadCharacter};
ghost use Rattle.lexer.specs.Classes.{class_of};
ghost use Rattle.lexer.specs.Constants.{is_plain, digit_value, value_of, escape_of};
ghost use Rattle.lexer.specs.Reading.{token, sized, word_front, number_front, character_front, mark_front, token_front};
ghost use Rattle.lexer.specs.Spelling.{mark_at};
ghost use Rattle.lexer.specs.Scans.{in_run, front_of, TokenAt};

use crate::class::{Class, class_of};
use crate::kind::{Kind, Token};
use crate::spellings::{mark_at, word_kind};
use refusal::{Reason, Refusal};

// A token, apart from its place.
#[derive(Clone, Copy, PartialEq, Eq, Debug)]
struct Scanned {
    kind: Kind,
    length: usize,
    value: u32,
}

// The bytes that a name or a number goes on with.
#[derive(Clone, Copy, PartialEq, Eq, Debug)]
enum Run {
    Word,
    Decimal,
    Hexadecimal,
}

// The greatest number.
const GREATEST: u64 = 2_147_483_647;

impl Run {
    fn has(self, b: u8) -> bool
        ensures { result ≡ in_run self b }
    {
        match self {
            Run::Word => b.is_ascii_alphanumeric() || b == b'_',
            Run::Decimal => b.is_ascii_digit(),
            Run::Hexadecimal => b.is_ascii_hexdigit(),
        }
    }

    // How many bytes of the run `rest` begins with.
    fn length(self, rest: &[u8]) -> usize
        ensures same { result ≡ prefix_len (in_run self) rest.now }
        ensures within { result ≤ length rest.now }
    {
        rest.iter().take_while(|b| self.has(**b)).count()
    }
}

fn digit_value(b: u8) -> u64
    ensures value { result ≡ digit_value b }
    ensures small { result < 16 }
{
    u64::from(char::from(b).to_digit(16).unwrap_or(0))
}

// The number that the digits stand for, or one more than the greatest if it is too large.
fn value_of(digits: &[u8], base: u64) -> u64
    requires { (0 < base) × (base ≤ 16) }
    ensures { result ≡ min 2147483648 (value_of base digits.now) }
{
    // Tried: `fold`; its closure does not know how large the number is that it is given.
    let mut value: u64 = 0;
    for d in digits {
        value = (value * base + digit_value(*d)).min(GREATEST + 1);
    }
    value
}

// A number of so many digits in the base, after a prefix of so many bytes.
fn numeral(rest: &[u8], prefix: usize, digits: usize, base: u64) -> Result<Scanned, Reason>
    requires { (prefix + digits ≤ length rest.now) × ((0 < base) × (base ≤ 16)) }
    ensures { front_of result ≡ sized (prefix + digits) (value_of base (take digits (drop prefix rest.now))) }
{
    let length = prefix + digits;
    let value = value_of(&rest[prefix..length], base);
    if value > GREATEST {
        return Err(Reason::NumberTooLarge);
    }
    Ok(Scanned {
        kind: Kind::Number,
        length,
        value: value as u32,
    })
}

// A number: hexadecimal after `0x` and a digit, else decimal.
fn number(rest: &[u8]) -> Result<Scanned, Reason>
    ensures { front_of result ≡ number_front rest.now }
{
    match rest {
        [b'0', b'x', d, more @ ..] if Run::Hexadecimal.has(*d) => {
            numeral(rest, 2, 1 + Run::Hexadecimal.length(more), 16)
        }
        _ => numeral(rest, 0, Run::Decimal.length(rest), 10),
    }
}

// A name or a keyword.
fn word(rest: &[u8]) -> Scanned
    ensures { token result.kind result.length result.value ≡ word_front rest.now }
{
    let length = Run::Word.length(rest);
    Scanned {
        kind: word_kind(&rest[0..length]),
        length,
        value: 0,
    }
}

// The value of the escape of `c`.
fn escape(c: char) -> Result<u8, Reason>
    ensures { result ≡ ok_or (escape_of c) BadCharacter }
{
    match c {
        'n' => Ok(b'\n'),
        't' => Ok(b'\t'),
        'r' => Ok(b'\r'),
        'a' => Ok(7),
        'b' => Ok(8),
        'f' => Ok(12),
        'v' => Ok(11),
        '0' => Ok(0),
        '\\' => Ok(b'\\'),
        '\'' => Ok(b'\''),
        '"' => Ok(b'"'),
        '?' => Ok(b'?'),
        _ => Err(Reason::BadCharacter),
    }
}

fn is_plain(b: u8) -> bool
    ensures { result ≡ is_plain b }
{
    matches!(b, b' '..=b'~') && !matches!(b, b'\'' | b'\\')
}

// A character constant, from its opening quote on.
fn character(rest: &[u8]) -> Result<Scanned, Reason>
    ensures { front_of result ≡ character_front rest.now }
{
    match rest {
        [_, b'\\', c, b'\'', ..] => {
            let value = u32::from(escape(char::from(*c))?);
            Ok(Scanned {
                kind: Kind::Character,
                length: 4,
                value,
            })
        }
        [_, c, b'\'', ..] if is_plain(*c) => {
            Ok(Scanned {
                kind: Kind::Character,
                length: 3,
                value: u32::from(*c),
            })
        }
        _ => Err(Reason::BadCharacter),
    }
}

fn mark(rest: &[u8]) -> Result<Scanned, Reason>
    ensures { front_of result ≡ mark_front (mark_at rest.now) }
{
    let (kind, length) = mark_at(rest).ok_or(Reason::StrayByte)?;
    Ok(Scanned {
        kind,
        length,
        value: 0,
    })
}

// The token that `rest` begins with.
fn scan(rest: &[u8]) -> Result<Scanned, Reason>
    requires { 0 < length rest.now }
    ensures { front_of result ≡ token_front (class_of (slice_index rest.now 0)) rest.now }
{
    match class_of(rest[0]) {
        Class::Letter => Ok(word(rest)),
        Class::Digit => number(rest),
        Class::Quote => character(rest),
        Class::Mark => mark(rest),
        Class::Blank | Class::Underscore | Class::Stray => Err(Reason::StrayByte),
    }
}

// The token at a place.
pub(crate) fn token_at(source: &[u8], at: usize) -> Result<Token, Refusal>
    requires within { at < length source.now }
    requires short { length source.now ≤ 16384 }
    ensures { TokenAt source.now at result }
{
    let place = at as u32;
    let Scanned {
        kind,
        length,
        value,
    } = scan(&source[at..]).map_err(|reason| reason.at(place))?;
    Ok(Token {
        kind,
        place,
        length: length as u32,
        value: value as i32,
    })
}
