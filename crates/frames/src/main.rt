// Drives an engine as a camera module does: a script measures a part of a frame over several frames, a few ticks each; a
// script that is refused in between changes nothing; then the run starts anew.
#![tactic(auto)]

mod show;

use boards::{Board, Crop, Frame, Window};
use engine::Engine;
use lexer::{TOKEN_LIMIT, Token};
use machine::Instruction;
use refusal::Refusal;
use show::{print_go, print_load, print_reports, print_rewind};
use std::io;
use translator::CODE_LIMIT;

// Sums the zones three times over, and reports the mean each time.
const SCRIPT: &[u8] =
    b"extern int zone(int i); extern int columns(); extern int rows(); extern void report(int v);
int main() {
    int count = columns() * rows();
    for (int round = 0 to 3) {
        int sum = 0;
        for (int i = 0 to count) sum += zone(i);
        report(sum / count);
    }
    return count;
}";

// No script: the operand is missing.
const DAMAGED: &[u8] = b"int main() { return 1 + ; }";

// The middle two of four columns.
const MIDDLE: Window = Window {
    left: 1,
    top: 0,
    columns: 2,
    rows: 3,
};

// Ticks for one frame.
const FEW: u32 = 7;

// A picture of 64 x 48 bytes that grows brighter from left to right.
fn picture() -> [u8; 3072] {
    let mut bytes = [0; 3072];
    for (i, byte) in bytes.iter_mut().enumerate() {
        *byte = (i % 64) as u8 * 4;
    }
    bytes
}

// Two frames, a script that is refused, three more frames; then the run starts anew and gets all it needs.
fn drive<B: Board>(rt: &HostRuntime, board: &mut B) -> io::Result<()> {
    let mut tokens = [Token::default(); TOKEN_LIMIT];
    let mut code = [Instruction::default(); CODE_LIMIT];
    let mut engine = Engine::new();
    print_go(rt, engine.go(&code, board, FEW))?;
    print_load(rt, engine.load(SCRIPT, &mut tokens, &mut code))?;
    for _ in 0..2 {
        print_go(rt, engine.go(&code, board, FEW))?;
    }
    print_load(rt, engine.load(DAMAGED, &mut tokens, &mut code))?;
    for _ in 0..3 {
        print_go(rt, engine.go(&code, board, FEW))?;
    }
    print_rewind(rt, engine.rewind())?;
    print_go(rt, engine.go(&code, board, 1_000_001))?;
    print_go(rt, engine.go(&code, board, 1_000_000))?;
    print_reports(rt, board)
}

// The part of the picture that the script measures.
fn part<'a>(bytes: &'a [u8]) -> Result<Crop<Frame<'a>>, Refusal> {
    let frame = Frame::new(4, 3, bytes, 4)?;
    Ok(Crop::new(frame, MIDDLE)?)
}

fn main(rt: HostRuntime) -> io::Result<()> {
    let bytes = picture();
    match part(&bytes) {
        Ok(mut part) => drive(&rt, &mut part),
        Err(refusal) => {
            let reason = refusal.reason;
            println!(rt; "refused {reason}")
        }
    }
}
