// A table of sources, read one by one. A line of standard input has three words: how often the first bytes stand, these
// bytes, and the bytes after them, in hexadecimal digits, `-` for none. What each source comes to is printed on a line: the
// answer, how many records of the token list have changed, and those records (of many only the last).
#![tactic(auto)]

ghost use Rattle.std.specs.Prelude.{◌<◌};

mod tests;

use lexer::{Kind, TOKEN_LIMIT, Token};
use std::alloc::{AllocError, Global};
use std::io;
use std::io::{BufRead, BufReader};

// A record as no source gives it: what is left of it was not written.
const UNTOUCHED: Token = Token {
    kind: Kind::Comma,
    place: 77_777,
    length: 77,
    value: -7,
};

// The most records that are printed for one source.
const SHOWN: usize = 48;

// What a digit of a table stands for; a byte that is none counts 0. The library reads capital letters and a sign too, and
// gives up a whole pair of which one byte is no digit.
fn digit(b: u8) -> u8
    ensures { result < 16 }
{
    match b {
        b'0'..=b'9' => b - b'0',
        b'a'..=b'f' => b - b'a' + 10,
        _ => 0,
    }
}

// Puts the bytes that the hexadecimal digits stand for at the end of the source.
fn put(source: &mut Vec<u8>, digits: &str) -> Result<(), AllocError> {
    for pair in digits.as_bytes().chunks_exact(2) {
        source.push(digit(pair[0]) * 16 + digit(pair[1]))?;
    }
    Ok(())
}

// The source of a line.
fn source_of(heap: Global, line: &str) -> Result<Vec<u8>, AllocError> {
    let mut source = Vec::new(heap);
    let mut words = line.split(' ');
    let count: u16 = words.next().unwrap_or("").parse().unwrap_or(0);
    let first = words.next().unwrap_or("-");
    let last = words.next().unwrap_or("-");
    for _ in 0..count {
        put(&mut source, first)?;
    }
    put(&mut source, last)?;
    Ok(source)
}

// How many of the first records have changed.
fn changed(tokens: &[Token]) -> usize {
    tokens
        .iter()
        .position(|token| *token == UNTOUCHED)
        .unwrap_or(tokens.len())
}

fn print_record(rt: &impl Print, token: Token) -> io::Result<()> {
    let Token {
        kind,
        place,
        length,
        value,
    } = token;
    print!(rt; " {kind}:{place}:{length}:{value}")
}

fn print_records(rt: &impl Print, tokens: &[Token]) -> io::Result<()> {
    let count = changed(tokens);
    print!(rt; " {count}")?;
    let from = if count > SHOWN { count - 1 } else { 0 };
    for token in tokens.iter().take(count).skip(from) {
        print_record(rt, *token)?;
    }
    println!(rt; "")
}

fn print_reading(rt: &impl Print, source: &[u8]) -> io::Result<()> {
    let mut tokens = [UNTOUCHED; TOKEN_LIMIT + 1];
    match lexer::read(source, &mut tokens) {
        Ok(count) => print!(rt; "tokens {count}")?,
        Err(refusal) => print!(rt; "{refusal}")?,
    }
    print_records(rt, &tokens)
}

fn main(rt: HostRuntime) -> io::Result<()> {
    for line in BufReader::new(rt.alloc(), rt.stdin())?.lines(rt.alloc()) {
        let line = line?;
        let source = source_of(rt.alloc(), line.as_str())?;
        print_reading(&rt, &source)?;
    }
    Ok(())
}
