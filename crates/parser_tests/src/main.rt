// A table of scripts, each on a line of standard input: the verdict on each is printed on a line.
#![tactic(auto)]

mod tests;

use lexer::{TOKEN_LIMIT, Token};
use refusal::Refusal;
use std::io;
use std::io::{BufRead, BufReader};

// The verdict on a source, as the program `outline` has it: these five lines are no reason for a library under both.
fn verdict(source: &[u8]) -> Result<(), Refusal> {
    let mut tokens = [Token::default(); TOKEN_LIMIT];
    let count = lexer::read(source, &mut tokens)?;
    parser::parse(source, &tokens[..count.min(TOKEN_LIMIT)])
}

fn main(rt: HostRuntime) -> io::Result<()> {
    for line in BufReader::new(rt.alloc(), rt.stdin())?.lines(rt.alloc()) {
        let line = line?;
        match verdict(line.as_str().as_bytes()) {
            Ok(()) => println!(rt; "accepted")?,
            Err(refusal) => println!(rt; "{refusal}")?,
        }
    }
    Ok(())
}
