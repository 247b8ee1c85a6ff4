// Measures a frame of 4 x 3 tiles that it reads from standard input, and parts of it.
#![tactic(auto)]

mod fault;
mod filing;
mod table;

use boards::{Crop, Frame, Window};
use fault::Fault;
use filing::{file_zones, print_kept};
use std::io;
use std::io::Read;
use table::print_table;

const COLUMNS: u32 = 4;

const ROWS: u32 = 3;

const ALLOWANCE: u32 = 3;

const OUTSIDE: Window = Window {
    left: 2,
    top: 0,
    columns: 3,
    rows: 3,
};

const OUTER: Window = Window {
    left: 1,
    top: 0,
    columns: 3,
    rows: 3,
};

const INNER: Window = Window {
    left: 1,
    top: 1,
    columns: 2,
    rows: 2,
};

// Tries a crop that reaches outside, and gives the frame back as it came.
fn try_outside<'a>(rt: &HostRuntime, frame: Frame<'a>) -> Result<Frame<'a>, Fault> {
    println!(rt; "crop: {OUTSIDE}")?;
    match Crop::new(frame, OUTSIDE) {
        Ok(crop) => Ok(crop.into_lower()),
        Err(refused) => {
            let reason = refused.refusal.reason;
            println!(rt; "refused {reason}")?;
            Ok(refused.lower)
        }
    }
}

fn run(rt: &HostRuntime, bytes: &[u8]) -> Result<(), Fault> {
    let mut frame = Frame::new(COLUMNS, ROWS, bytes, ALLOWANCE)?;
    println!(rt; "frame: {COLUMNS} x {ROWS}")?;
    print_table(rt, &mut frame)?;
    let frame = try_outside(rt, frame)?;
    println!(rt; "crop: {OUTER}")?;
    let mut crop = Crop::new(frame, OUTER)?;
    print_table(rt, &mut crop)?;
    println!(rt; "crop of the crop: {INNER}")?;
    let mut part = Crop::new(crop, INNER)?;
    print_table(rt, &mut part)?;
    file_zones(rt, &mut part)?;
    let mut frame = part.into_lower().into_lower();
    println!(rt; "kept by the frame")?;
    print_kept(rt, &mut frame)?;
    if let Some(window) = INNER.through(OUTER) {
        println!(rt; "the same as one crop: {window}")?;
        let mut once = Crop::new(frame, window)?;
        print_table(rt, &mut once)?;
    }
    Ok(())
}

fn main(rt: HostRuntime) -> io::Result<()> {
    let mut bytes = Vec::new(rt.alloc());
    let _count = rt.stdin().read_to_end(&mut bytes)?;
    match run(&rt, &bytes) {
        Ok(()) => Ok(()),
        Err(Fault::Output(error)) => Err(error),
        Err(Fault::Refused(refusal)) => println!(rt; "{refusal}"),
    }
}
