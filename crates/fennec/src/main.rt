// Runs the script on standard input over a small statistics board, and prints what came of it: a line for its refusal; or its
// reports, its ending and the ticks it spent.
#![tactic(auto)]

use boards::{Board, Stats};
use engine::Engine;
use lexer::{TOKEN_LIMIT, Token};
use machine::{Answer, Instruction};
use refusal::Refusal;
use std::io;
use std::io::Read;
use translator::CODE_LIMIT;

const COLUMNS: u32 = 4;

const ROWS: u32 = 3;

// Zone i is 10 x i.
const ZONES: [i32; 12] = [0, 10, 20, 30, 40, 50, 60, 70, 80, 90, 100, 110];

const ALLOWANCE: u32 = 16;

const TICKS: u32 = 1_000;

// Loads the source and lets it go with all its ticks, as the tests of the engine do: programs share no library for this.
fn measure<B: Board>(source: &[u8], board: &mut B) -> Result<Answer, Refusal> {
    let mut tokens = [Token::default(); TOKEN_LIMIT];
    let mut code = [Instruction::default(); CODE_LIMIT];
    let mut engine = Engine::new();
    engine.load(source, &mut tokens, &mut code)?;
    engine.go(&code, board, TICKS)
}

// Every report that the board kept, in order. The program `frames` has this loop with other words in its
// line: programs share no library for three lines.
fn print_reports<B: Board>(rt: &HostRuntime, board: &mut B) -> io::Result<()> {
    for report in (0..usize::MAX).map_while(|k| board.kept(k)) {
        println!(rt; "report {report}")?;
    }
    Ok(())
}

fn print_answer(rt: &HostRuntime, answer: Answer) -> io::Result<()> {
    let Answer {
        ending,
        place,
        spent,
        ..
    } = answer;
    let value = ending.value();
    println!(rt; "ending {ending} {value} {place}")?;
    println!(rt; "ticks {spent}")
}

fn main(rt: HostRuntime) -> io::Result<()> {
    let mut source = Vec::new(rt.alloc());
    rt.stdin().read_to_end(&mut source)?;
    match Stats::new(COLUMNS, ROWS, &ZONES, ALLOWANCE) {
        Ok(mut board) => match measure(&source, &mut board) {
            Ok(answer) => {
                print_reports(&rt, &mut board)?;
                print_answer(&rt, answer)
            }
            Err(refusal) => println!(rt; "{refusal}"),
        },
        Err(refusal) => println!(rt; "{refusal}"),
    }
}
