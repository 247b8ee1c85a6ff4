// Tells whether the bytes on standard input are a script by their tokens and grammar, or why they are refused.
#![tactic(auto)]

use lexer::{TOKEN_LIMIT, Token};
use refusal::Refusal;
use std::io;
use std::io::Read;

// The verdict of reading, then of the grammar; the tests of the grammar have it too, and share no library with this program.
fn verdict(source: &[u8]) -> Result<(), Refusal> {
    let mut tokens = [Token::default(); TOKEN_LIMIT];
    let count = lexer::read(source, &mut tokens)?;
    parser::parse(source, &tokens[..count.min(TOKEN_LIMIT)])
}

fn main(rt: HostRuntime) -> io::Result<()> {
    let mut source = Vec::new(rt.alloc());
    rt.stdin().read_to_end(&mut source)?;
    match verdict(&source) {
        Ok(()) => println!(rt; "accepted"),
        Err(refusal) => println!(rt; "{refusal}"),
    }
}
