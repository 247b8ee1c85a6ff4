// What a machine keeps of a run, and answers.
ghost use Rattle.std.specs.Prelude.{◌≡◌, ◌≤◌, ◌+◌, ◌-◌};
ghost use Rattle.machine.specs.Codes.{place_at};
ghost use Rattle.machine.specs.Endings.{end_of};
ghost use Rattle.boards.specs.Meaning.{Meaning};
ghost use Rattle.machine.specs.Runs.{kept_at, up_to};
ghost use Rattle.machine.specs.Views.{state_of, over_of, keeps, said_of, Begun, Settled, settled};

use crate::answer::{Answer, Ended};
use crate::cursor::Cursor;
use crate::ending::Ending;
use crate::instruction::Instruction;
use crate::machine::Machine;
use crate::running::Halted;
use crate::stop::Stop;
use std::ops::ControlFlow;

// The place of the instruction at a position, 0 where there is none.
pub(crate) fn place_at(code: &[Instruction], position: usize) -> i32
    ensures { result ≡ place_at code.now position }
{
    code.get(position)
        .map_or(0, |instruction| instruction.place)
}

impl Machine {
    // The answer at this end.
    pub(crate) fn answer(&self, ending: Ending, place: i32) -> Answer
        ensures { said_of result ≡ record { end = end_of ending; place = place; spent = self.now.spent; counted = self.now.counted } }
    {
        Answer {
            ending,
            place,
            spent: self.spent,
            counted: self.counted,
        }
    }

    // Where a run goes on with `ticks` at hand, or the answer of one that is over.
    pub(crate) fn begin(&self, ticks: u32) -> ControlFlow<Answer, Cursor>
        ensures { Begun self.now ticks result }
    {
        match self.over {
            Some(ended) => ControlFlow::Break(self.answer(ended.ending, ended.place)),
            None => ControlFlow::Continue(Cursor {
                position: self.position,
                height: self.height,
                left: u64::from(ticks),
            }),
        }
    }

    // Keeps where a run stands, and the ticks that it spent of `ticks`.
    fn stand(&mut self, at: Cursor, ticks: u32)
        requires { at.left ≤ ticks }
        ensures memory { self.new.memory ≡ self.old.memory }
        ensures position { self.new.position ≡ at.position }
        ensures height { self.new.height ≡ at.height }
        ensures spent { self.new.spent ≡ up_to (self.old.spent + (ticks - at.left)) }
        ensures counted { self.new.counted ≡ self.old.counted }
        ensures over { self.new.over ≡ self.old.over }
    {
        self.position = at.position;
        self.height = at.height;
        self.spent = self.spent.saturating_add(u64::from(ticks) - at.left);
    }

    // Keeps where a run stands, and answers how it came out.
    pub(crate) fn settle(&mut self, code: &[Instruction], halted: Halted, ticks: u32) -> Answer
        requires { halted.at.left ≤ ticks }
        ensures { Settled (settled self.old code.now halted ticks) result self.new }
    {
        let place = place_at(code, halted.at.position);
        self.stand(halted.at, ticks);
        self.counted = halted.counted;
        match halted.stop {
            Stop::Waits => {
                self.over = None;
                self.answer(Ending::Waiting, place)
            }
            Stop::Ends(ending) => {
                self.over = Some(Ended { ending, place });
                self.answer(ending, place)
            }
            Stop::Breaks => {
                self.over = Some(Ended {
                    ending: Ending::Broken,
                    place: 0,
                });
                self.answer(Ending::Broken, 0)
            }
        }
    }

    // Keeps where a run stands after one instruction that goes on; the ticks that are left.
    pub(crate) fn move_on(&mut self, at: Cursor, ticks: u32) -> u32
        requires { at.left ≤ ticks }
        ensures left { result ≡ at.left }
        ensures after { (b : Meaning) → keeps self.new ≡ kept_at (keeps self.old) ticks (state_of self.old.memory at b) 1 (over_of self.old.over) }
    {
        self.stand(at, ticks);
        self.counted = self.counted.saturating_add(1);
        at.left as u32
    }
}
