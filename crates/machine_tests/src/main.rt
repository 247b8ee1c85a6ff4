// Hand-written code lists, for every instruction and every ending: each line that is printed has the case's name,
// the ending's number, its value and place, the ticks spent and the instructions counted.
#![tactic(auto)]

mod small;

use machine::{Answer, Instruction, Machine};
use small::Small;
use std::io;
use std::ops::ControlFlow;

// Instructions are written by number, because numbers that no instruction has are tried too.
fn at(code: i32, operand: i32, place: i32) -> Instruction {
    Instruction {
        code,
        operand,
        place,
    }
}

fn show(rt: &impl Print, name: &str, answer: Answer) -> io::Result<()> {
    let number = answer.ending.number();
    let value = answer.ending.value();
    println!(rt;
        "{name}: {number} {value} {} {} {}",
        answer.place, answer.spent, answer.counted
    )
}

// A fresh machine runs all of a code list on a fresh board.
fn case(rt: &impl Print, name: &str, code: &[Instruction], ticks: u32) -> io::Result<()> {
    let mut machine = Machine::new();
    let mut board = Small { report: None };
    show(rt, name, machine.run(code, code.len(), &mut board, ticks))
}

// Sums, differences, products, quotients and remainders.
fn arithmetic(rt: &impl Print) -> io::Result<()> {
    case(
        rt,
        "add wraps",
        &[at(0, 2147483647, 0), at(0, 1, 0), at(4, 0, 0), at(21, 0, 9)],
        0,
    )?;
    case(
        rt,
        "sub",
        &[at(0, 3, 0), at(0, 5, 0), at(5, 0, 0), at(21, 0, 9)],
        0,
    )?;
    case(
        rt,
        "mul wraps",
        &[at(0, 65536, 0), at(0, 65536, 0), at(6, 0, 0), at(21, 0, 0)],
        0,
    )?;
    case(
        rt,
        "div drops the fraction",
        &[at(0, -7, 0), at(0, 2, 0), at(7, 0, 0), at(21, 0, 0)],
        0,
    )?;
    case(
        rt,
        "least by -1",
        &[at(0, i32::MIN, 0), at(0, -1, 0), at(7, 0, 0), at(21, 0, 0)],
        0,
    )?;
    case(
        rt,
        "div by 0",
        &[at(0, 1, 0), at(0, 0, 0), at(7, 0, 19), at(21, 0, 0)],
        0,
    )?;
    case(
        rt,
        "rem has the left sign",
        &[at(0, -7, 0), at(0, 2, 0), at(8, 0, 0), at(21, 0, 0)],
        0,
    )?;
    case(
        rt,
        "least rem -1",
        &[at(0, i32::MIN, 0), at(0, -1, 0), at(8, 0, 0), at(21, 0, 0)],
        0,
    )?;
    case(
        rt,
        "rem by 0",
        &[at(0, 1, 0), at(0, 0, 0), at(8, 0, -3), at(21, 0, 0)],
        0,
    )
}

// Low bits, comparisons and not.
fn bits(rt: &impl Print) -> io::Result<()> {
    case(
        rt,
        "low 128",
        &[at(0, 128, 0), at(9, 0, 0), at(21, 0, 0)],
        0,
    )?;
    case(
        rt,
        "low -129",
        &[at(0, -129, 0), at(9, 0, 0), at(21, 0, 0)],
        0,
    )?;
    case(
        rt,
        "low 255",
        &[at(0, 255, 0), at(9, 0, 0), at(21, 0, 0)],
        0,
    )?;
    case(
        rt,
        "less",
        &[at(0, -1, 0), at(0, 1, 0), at(10, 0, 0), at(21, 0, 0)],
        0,
    )?;
    case(
        rt,
        "not less",
        &[at(0, 1, 0), at(0, 1, 0), at(10, 0, 0), at(21, 0, 0)],
        0,
    )?;
    case(
        rt,
        "greater",
        &[at(0, 2, 0), at(0, 1, 0), at(11, 0, 0), at(21, 0, 0)],
        0,
    )?;
    case(
        rt,
        "not greater",
        &[at(0, 1, 0), at(0, 1, 0), at(11, 0, 0), at(21, 0, 0)],
        0,
    )?;
    case(
        rt,
        "equal",
        &[at(0, -4, 0), at(0, -4, 0), at(12, 0, 0), at(21, 0, 0)],
        0,
    )?;
    case(
        rt,
        "not equal",
        &[at(0, 4, 0), at(0, -4, 0), at(12, 0, 0), at(21, 0, 0)],
        0,
    )?;
    case(
        rt,
        "not of 0",
        &[at(0, 0, 0), at(13, 0, 0), at(21, 0, 0)],
        0,
    )?;
    case(
        rt,
        "not of -1",
        &[at(0, -1, 0), at(13, 0, 0), at(21, 0, 0)],
        0,
    )
}

// Cells, and values let go.
fn cells(rt: &impl Print) -> io::Result<()> {
    case(
        rt,
        "a cell is 0 at first",
        &[at(1, 63, 0), at(21, 0, -5)],
        0,
    )?;
    case(
        rt,
        "store and load",
        &[at(0, 5, 0), at(2, 63, 0), at(1, 63, 0), at(21, 0, 0)],
        0,
    )?;
    case(
        rt,
        "store takes the value away",
        &[at(0, 1, 0), at(0, 5, 0), at(2, 0, 0), at(21, 0, 0)],
        0,
    )?;
    case(
        rt,
        "discard",
        &[at(0, 1, 0), at(0, 5, 0), at(3, 0, 0), at(21, 0, 0)],
        0,
    )?;
    case(rt, "load of cell 64", &[at(1, 64, 9)], 0)?;
    case(rt, "load of cell -1", &[at(1, -1, 9)], 0)?;
    case(rt, "store to cell 64", &[at(0, 1, 0), at(2, 64, 9)], 0)?;
    case(rt, "store to cell -1", &[at(0, 1, 0), at(2, -1, 9)], 0)
}

// Jumps, taken and not.
fn jumps(rt: &impl Print) -> io::Result<()> {
    case(
        rt,
        "forward",
        &[at(14, 2, 0), at(22, 0, 0), at(0, 3, 0), at(21, 0, 0)],
        0,
    )?;
    case(rt, "forward out of the records", &[at(14, 100, 0)], 0)?;
    case(rt, "to itself", &[at(14, 0, 0)], 0)?;
    case(rt, "to a negative position", &[at(14, -1, 0)], 0)?;
    case(
        rt,
        "back onto no tick",
        &[at(0, 1, 0), at(3, 0, 0), at(14, 0, 0)],
        0,
    )?;
    case(rt, "back onto a tick", &[at(16, 0, 11), at(14, 0, 0)], 5)?;
    case(
        rt,
        "taken at 0",
        &[
            at(0, 0, 0),
            at(15, 3, 0),
            at(22, 0, 0),
            at(0, 3, 0),
            at(21, 0, 0),
        ],
        0,
    )?;
    case(
        rt,
        "not taken at 1",
        &[at(0, 1, 0), at(15, -7, 0), at(0, 3, 0), at(21, 0, 0)],
        0,
    )?;
    case(
        rt,
        "not taken at -1",
        &[at(0, -1, 0), at(15, -7, 0), at(0, 3, 0), at(21, 0, 0)],
        0,
    )?;
    case(
        rt,
        "taken back onto no tick",
        &[at(0, 0, 0), at(15, 0, 0)],
        0,
    )
}

// Codes, fetches and ticks.
fn endings(rt: &impl Print) -> io::Result<()> {
    case(rt, "no records", &[], 3)?;
    case(rt, "past the end", &[at(0, 1, 0)], 3)?;
    case(rt, "code 22", &[at(22, 0, 9)], 0)?;
    case(rt, "code -1", &[at(-1, 0, 9)], 0)?;
    case(rt, "least code", &[at(i32::MIN, 0, 9)], 0)?;
    case(rt, "no tick", &[at(16, 0, 7), at(0, 1, 0), at(21, 0, 0)], 0)?;
    case(
        rt,
        "one tick",
        &[at(16, 0, 7), at(0, 1, 0), at(21, 0, 8)],
        1,
    )
}

// Too few values, for each code that takes one.
fn empty(rt: &impl Print) -> io::Result<()> {
    case(rt, "code 2 with none", &[at(2, 0, 9)], 0)?;
    case(rt, "code 3 with none", &[at(3, 0, 9)], 0)?;
    case(rt, "code 9 with none", &[at(9, 0, 9)], 0)?;
    case(rt, "code 13 with none", &[at(13, 0, 9)], 0)?;
    case(rt, "code 15 with none", &[at(15, 0, 9)], 0)?;
    case(rt, "code 17 with none", &[at(17, 0, 9)], 0)?;
    case(rt, "code 20 with none", &[at(20, 0, 9)], 0)?;
    case(rt, "code 21 with none", &[at(21, 0, 9)], 0)?;
    case(rt, "code 4 with one", &[at(0, 1, 0), at(4, 0, 9)], 0)?;
    case(rt, "code 5 with one", &[at(0, 1, 0), at(5, 0, 9)], 0)?;
    case(rt, "code 6 with one", &[at(0, 1, 0), at(6, 0, 9)], 0)?;
    case(rt, "code 7 with one", &[at(0, 1, 0), at(7, 0, 9)], 0)?;
    case(rt, "code 8 with one", &[at(0, 1, 0), at(8, 0, 9)], 0)?;
    case(rt, "code 10 with one", &[at(0, 1, 0), at(10, 0, 9)], 0)?;
    case(rt, "code 11 with one", &[at(0, 1, 0), at(11, 0, 9)], 0)?;
    case(rt, "code 12 with one", &[at(0, 1, 0), at(12, 0, 9)], 0)
}

// What is asked of the board: 2 zones, 10 and 20, and 1 report.
fn board(rt: &impl Print) -> io::Result<()> {
    case(rt, "columns", &[at(18, 0, 0), at(21, 0, 0)], 0)?;
    case(rt, "rows", &[at(19, 0, 0), at(21, 0, 0)], 0)?;
    case(rt, "zone 1", &[at(0, 1, 0), at(17, 0, 0), at(21, 0, 0)], 0)?;
    case(rt, "zone 2", &[at(0, 2, 0), at(17, 0, 4), at(21, 0, 0)], 0)?;
    case(
        rt,
        "zone -1",
        &[at(0, -1, 0), at(17, 0, 4), at(21, 0, 0)],
        0,
    )?;
    case(
        rt,
        "one report",
        &[at(0, 7, 0), at(20, 0, 0), at(0, 1, 0), at(21, 0, 0)],
        0,
    )?;
    case(
        rt,
        "two reports",
        &[at(0, 7, 0), at(20, 0, 0), at(0, 8, 0), at(20, 0, 6)],
        0,
    )
}

// The value stack holds 256 values: a 257th is broken, and what takes a value first is not.
fn full(rt: &impl Print) -> io::Result<()> {
    let mut code = [at(0, 5, 0); 260];
    case(rt, "257th value", &code[0..257], 0)?;
    code[256] = at(1, 0, 9);
    case(rt, "257th by load", &code[0..257], 0)?;
    code[256] = at(18, 0, 9);
    case(rt, "257th by columns", &code[0..257], 0)?;
    code[256] = at(9, 0, 0);
    code[257] = at(21, 0, 3);
    case(rt, "256 and low", &code[0..258], 0)?;
    code[255] = at(0, 1, 0);
    code[256] = at(17, 0, 0);
    case(rt, "256 and zone", &code[0..258], 0)
}

// Records past the first n are not fetched, and neither are those past the list.
fn counted_records(rt: &impl Print) -> io::Result<()> {
    let code = [at(0, 1, 0), at(3, 0, 0), at(0, 2, 0), at(21, 0, 0)];
    let mut board = Small { report: None };
    let mut machine = Machine::new();
    show(rt, "first 2 records", machine.run(&code, 2, &mut board, 0))?;
    let mut machine = Machine::new();
    show(
        rt,
        "more records than there are",
        machine.run(&code, 100, &mut board, 0),
    )
}

// A run that waits goes on where it waits, on another code list too; one that is over stays over.
fn resumed(rt: &impl Print) -> io::Result<()> {
    let code = [at(16, 0, 7), at(0, 5, 0), at(2, 0, 0), at(14, 0, 0)];
    let other = [at(1, 0, 0), at(21, 0, 8)];
    let mut board = Small { report: None };
    let mut machine = Machine::new();
    show(rt, "waits", machine.run(&code, 4, &mut board, 2))?;
    show(rt, "waits with none", machine.run(&code, 4, &mut board, 0))?;
    show(rt, "goes on", machine.run(&code, 4, &mut board, 3))?;
    show(rt, "on another list", machine.run(&other, 2, &mut board, 0))?;
    show(rt, "stays over", machine.run(&code, 4, &mut board, 9))
}

// One step at a time.
fn stepped(rt: &impl Print) -> io::Result<()> {
    let code = [at(16, 0, 7), at(0, 5, 0), at(21, 0, 8)];
    let mut board = Small { report: None };
    let mut machine = Machine::new();
    step(
        rt,
        "step without a tick",
        machine.step(&code, 3, &mut board, 0),
    )?;
    step(rt, "step with two", machine.step(&code, 3, &mut board, 2))?;
    step(rt, "step to push", machine.step(&code, 3, &mut board, 1))?;
    step(rt, "step to return", machine.step(&code, 3, &mut board, 1))?;
    step(rt, "step when over", machine.step(&code, 3, &mut board, 1))
}

fn step(rt: &impl Print, name: &str, step: ControlFlow<Answer, u32>) -> io::Result<()> {
    match step {
        ControlFlow::Continue(left) => println!(rt; "{name}: goes, {left} left"),
        ControlFlow::Break(answer) => show(rt, name, answer),
    }
}

fn main(rt: HostRuntime) -> io::Result<()> {
    arithmetic(&rt)?;
    bits(&rt)?;
    cells(&rt)?;
    jumps(&rt)?;
    endings(&rt)?;
    empty(&rt)?;
    board(&rt)?;
    full(&rt)?;
    counted_records(&rt)?;
    resumed(&rt)?;
    stepped(&rt)
}
