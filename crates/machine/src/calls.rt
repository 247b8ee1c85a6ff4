// The calls of the machine.
ghost use Rattle.std.specs.Prelude.{◌≡◌, take, is_some};
ghost use Rattle.machine.specs.Runs.{fresh, call, says, turn};
ghost use Rattle.machine.specs.Laws.{Ends, Waits, Resumes, Bounded, Stays};
ghost use Rattle.machine.specs.Views.{keeps, said_of, turn_of};

use crate::answer::Answer;
use crate::cursor::Cursor;
use crate::instruction::Instruction;
use crate::machine::Machine;
use crate::memory::Memory;
use crate::running::Halted;
use boards::Board;
use std::ops::ControlFlow;

// The first `n` records, or all of them.
fn first(code: &[Instruction], n: usize) -> &[Instruction]
    ensures { result.now ≡ take n code.now }
{
    &code[..n.min(code.len())]
}

impl Machine {
    // A machine before its first instruction.
    pub fn new() -> Machine
        ensures fresh { keeps result ≡ fresh }
    {
        Machine {
            memory: Memory {
                cells: [0; 64],
                values: [0; 256],
            },
            position: 0,
            height: 0,
            spent: 0,
            counted: 0,
            over: None,
        }
    }

    // Whether the run has ended, and does not only wait.
    pub fn is_over(&self) -> bool
        ensures { result ≡ is_some (keeps self.now).over }
    {
        self.over.is_some()
    }

    // Runs the first `n` records of a code list until the run ends, or waits with its ticks spent.
    // A run that waits goes on where it waits; one that is over answers the same again.
    pub fn run<B: Board>(
        &mut self,
        code: &[Instruction],
        n: usize,
        board: &mut B,
        ticks: u32,
    ) -> Answer
        ensures answer { said_of result ≡ says (call (take n code.now) (keeps self.old) (B.meaning board.old) ticks) }
        ensures after { keeps self.new ≡ (call (take n code.now) (keeps self.old) (B.meaning board.old) ticks).kept }
        ensures board { B.meaning board.new ≡ (call (take n code.now) (keeps self.old) (B.meaning board.old) ticks).board }
        ensures ends { Ends }
        ensures waits { Waits }
        ensures resumes { Resumes }
        ensures stays { Stays }
        ensures bounded { Bounded }
    {
        match self.begin(ticks) {
            ControlFlow::Break(answer) => answer,
            ControlFlow::Continue(from) => {
                let records = first(code, n);
                let halted = self.memory.run(records, from, self.counted, board);
                self.settle(records, halted, ticks)
            }
        }
    }

    // One step over the first `n` records, with `ticks` at hand: it goes on with the ticks that are left, or stops.
    pub fn step<B: Board>(
        &mut self,
        code: &[Instruction],
        n: usize,
        board: &mut B,
        ticks: u32,
    ) -> ControlFlow<Answer, u32>
        ensures { turn_of result (keeps self.new) (B.meaning board.new) ≡ turn (take n code.now) (keeps self.old) (B.meaning board.old) ticks }
    {
        let from = self.begin(ticks)?;
        let records = first(code, n);
        let mut next = from;
        match self.memory.step(records, &mut next, board) {
            Ok(()) => ControlFlow::Continue(self.move_on(next, ticks)),
            Err(stop) => {
                let halted = Halted::new(stop, from, from.position, self.counted);
                ControlFlow::Break(self.settle(records, halted, ticks))
            }
        }
    }
}
