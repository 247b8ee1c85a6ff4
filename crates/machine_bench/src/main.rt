// Runs a loop of load, store, add, multiply, compare and jumps, for counting its cost.
#![tactic(auto)]

mod closed;

use boards::Board;
use closed::Closed;
use machine::{Instruction, Machine, Op};
use std::env;

fn at(op: Op, operand: i32) -> Instruction {
    Instruction {
        code: op.code(),
        operand,
        place: 0,
    }
}

// s = 0; i = 0; while (i < rounds) { s = s + i * 3; i = i + 1; } return s;
fn summing(rounds: i32) -> [Instruction; 22] {
    [
        at(Op::Push, 0),
        at(Op::Store, 0),
        at(Op::Push, 0),
        at(Op::Store, 1),
        at(Op::Tick, 0),
        at(Op::Load, 1),
        at(Op::Push, rounds),
        at(Op::Less, 0),
        at(Op::JumpIfZero, 20),
        at(Op::Load, 0),
        at(Op::Load, 1),
        at(Op::Push, 3),
        at(Op::Multiply, 0),
        at(Op::Add, 0),
        at(Op::Store, 0),
        at(Op::Load, 1),
        at(Op::Push, 1),
        at(Op::Add, 0),
        at(Op::Store, 1),
        at(Op::Jump, 4),
        at(Op::Load, 0),
        at(Op::Return, 0),
    ]
}

// The rounds that the first argument asks for, 20,000 without one.
fn rounds(rt: &HostRuntime) -> anyhow::Result<i32> {
    match env::args(rt)?.nth(1) {
        Some(word) => Ok(word.as_str().parse::<i32>()?),
        None => Ok(20_000),
    }
}

fn run(rt: &HostRuntime) -> anyhow::Result<()> {
    let code = summing(rounds(rt)?);
    let mut machine = Machine::new();
    let mut board = Closed {};
    let answer = machine.run(&code, 22, &mut board, 4_000_000_000);
    println!(rt;
        "value {} ticks {} instructions {}",
        answer.ending.value(),
        answer.spent,
        answer.counted
    )?;
    Ok(())
}

fn main(rt: HostRuntime) -> anyhow::Result<()> {
    run(&rt)
}
