// A line for each answer.
use boards::Board;
use machine::Answer;
use refusal::Refusal;
use std::io;
use translator::Counts;

pub(crate) fn print_load(rt: &HostRuntime, answer: Result<Counts, Refusal>) -> io::Result<()> {
    match answer {
        Ok(counts) => {
            let tokens = counts.tokens;
            println!(rt; "load: {tokens} tokens")
        }
        Err(refusal) => print_refusal(rt, "load", refusal),
    }
}

pub(crate) fn print_rewind(rt: &HostRuntime, answer: Result<(), Refusal>) -> io::Result<()> {
    match answer {
        Ok(()) => println!(rt; "rewind"),
        Err(refusal) => print_refusal(rt, "rewind", refusal),
    }
}

pub(crate) fn print_go(rt: &HostRuntime, answer: Result<Answer, Refusal>) -> io::Result<()> {
    match answer {
        Ok(answer) => {
            let Answer {
                ending,
                place,
                spent,
                ..
            } = answer;
            let value = ending.value();
            println!(rt; "go: {ending} {value} at {place}, {spent} ticks")
        }
        Err(refusal) => print_refusal(rt, "go", refusal),
    }
}

// Every report that the board kept, in order; `fennec` has this loop with other words, and programs share no library for it.
pub(crate) fn print_reports<B: Board>(rt: &HostRuntime, board: &mut B) -> io::Result<()> {
    for report in (0..usize::MAX).map_while(|k| board.kept(k)) {
        println!(rt; "report: {report}")?;
    }
    Ok(())
}

fn print_refusal(rt: &HostRuntime, call: &str, refusal: Refusal) -> io::Result<()> {
    let Refusal { reason, place } = refusal;
    println!(rt; "{call}: refused {reason} at {place}")
}
