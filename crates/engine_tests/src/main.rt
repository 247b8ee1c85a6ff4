// A table of scripts, each on a line of standard input: what comes of each, on the board of the program `fennec`, is printed
// on a line.
#![tactic(auto)]

mod tests;

use boards::{Board, Stats};
use engine::Engine;
use lexer::{TOKEN_LIMIT, Token};
use machine::{Answer, Instruction};
use refusal::Refusal;
use std::io;
use std::io::{BufRead, BufReader};
use translator::CODE_LIMIT;

// Zone i is 10 x i.
const ZONES: [i32; 12] = [0, 10, 20, 30, 40, 50, 60, 70, 80, 90, 100, 110];

// Loads a source, and lets it go with 1,000 ticks, as `fennec` does: these lines are no reason for a library under both.
fn measure<B: Board>(source: &[u8], board: &mut B) -> Result<Answer, Refusal> {
    let mut tokens = [Token::default(); TOKEN_LIMIT];
    let mut code = [Instruction::default(); CODE_LIMIT];
    let mut engine = Engine::new();
    engine.load(source, &mut tokens, &mut code)?;
    engine.go(&code, board, 1_000)
}

// What came of one script.
fn print_line(rt: &HostRuntime, source: &[u8]) -> io::Result<()> {
    let Ok(mut board) = Stats::new(4, 3, &ZONES, 16) else {
        return println!(rt; "no board");
    };
    match measure(source, &mut board) {
        Ok(answer) => {
            let Answer {
                ending,
                place,
                spent,
                ..
            } = answer;
            let number = ending.number();
            let value = ending.value();
            println!(rt; "ending {number} {value} {place} ticks {spent}")
        }
        Err(refusal) => println!(rt; "{refusal}"),
    }
}

fn main(rt: HostRuntime) -> io::Result<()> {
    for line in BufReader::new(rt.alloc(), rt.stdin())?.lines(rt.alloc()) {
        let line = line?;
        print_line(&rt, line.as_str().as_bytes())?;
    }
    Ok(())
}
