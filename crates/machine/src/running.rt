// The loop of a run.
ghost use Rattle.std.specs.Prelude.{◌≡◌, ◌+◌, ◌-◌, ◌≤◌};
ghost use Rattle.machine.specs.Runs.{run, up_to};
ghost use Rattle.machine.specs.Views.{carried_of, state_of, stop_of};

use crate::cursor::Cursor;
use crate::instruction::Instruction;
use crate::memory::Memory;
use crate::stop::Stop;
use boards::Board;

// How a run came out, where it stands, and the count.
#[derive(Clone, Copy)]
pub(crate) struct Halted {
    pub(crate) stop: Stop,
    pub(crate) at: Cursor,
    pub(crate) counted: u64,
}

impl Halted {
    // Stopped at the cursor, with `counted` counted before the instructions from `start` on.
    pub(crate) fn new(stop: Stop, at: Cursor, start: usize, counted: u64) -> Halted
        requires { start ≤ at.position }
        ensures stop { result.stop ≡ stop }
        ensures at { result.at ≡ at }
        ensures counted { result.counted ≡ up_to (counted + (at.position - start + carried_of stop)) }
    {
        Halted {
            stop,
            at,
            counted: counted
                .saturating_add((at.position - start) as u64)
                .saturating_add(stop.counts()),
        }
    }
}

impl Memory {
    // Steps until one does not go on. Between two jumps the position itself counts the instructions.
    pub(crate) fn run<B: Board>(
        &mut self,
        code: &[Instruction],
        from: Cursor,
        before: u64,
        board: &mut B,
    ) -> Halted
        ensures how { stop_of result.stop ≡ (run code.now (state_of self.old from (B.meaning board.old))).how }
        ensures state { state_of self.new result.at (B.meaning board.new) ≡ (run code.now (state_of self.old from (B.meaning board.old))).state }
        ensures counted { result.counted ≡ up_to (before + (run code.now (state_of self.old from (B.meaning board.old))).carried) }
    {
        let mut at = from;
        let mut start = from.position;
        let mut counted = before;
        'run: loop {
            let mut next = at;
            match self.step(code, &mut next, board) {
                Ok(()) => {
                    if next.position != at.position + 1 {
                        counted = counted.saturating_add((at.position - start) as u64 + 1);
                        start = next.position;
                    }
                    at = next;
                }
                // Tried: one arm for all stops makes a run slower, 25.8 processor instructions for each of the machine's;
                // the bar is 23.1.
                Err(Stop::Ends(ending)) => {
                    return Halted::new(Stop::Ends(ending), at, start, counted);
                }
                Err(Stop::Waits) => return Halted::new(Stop::Waits, at, start, counted),
                Err(Stop::Breaks) => return Halted::new(Stop::Breaks, at, start, counted),
            }
        }
    }
}
