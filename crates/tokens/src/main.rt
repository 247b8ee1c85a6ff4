// Lists the tokens of the script on standard input, or tells why it is refused.
#![tactic(auto)]

use lexer::{TOKEN_LIMIT, Token};
use std::io::Read;
use std::{io, str};

// One line: kind, place, length, value and text.
fn print_token(rt: &impl Print, token: Token, text: &[u8]) -> io::Result<()> {
    let Token {
        kind,
        place,
        length,
        value,
    } = token;
    let text = str::from_utf8(text).unwrap_or("");
    println!(rt; "{kind} {place} {length} {value} {text}")
}

fn main(rt: HostRuntime) -> io::Result<()> {
    let mut source = Vec::new(rt.alloc());
    rt.stdin().read_to_end(&mut source)?;
    let mut tokens = [Token::default(); TOKEN_LIMIT];
    match lexer::read(&source, &mut tokens) {
        Ok(count) => {
            for (k, token) in tokens.iter().take(count).enumerate() {
                let text = lexer::text(&source, &tokens, k).unwrap_or(b"");
                print_token(&rt, *token, text)?;
            }
            println!(rt; "tokens {count}")
        }
        Err(refusal) => println!(rt; "{refusal}"),
    }
}
