// The instructions that see the position and the ticks. The cursor is already on the instruction that follows.
ghost use Rattle.std.specs.Prelude.{◌≡◌, ◌+◌, ℕ};
ghost use Rattle.boards.specs.Meaning.{Meaning};
ghost use Rattle.machine.specs.Codes.{may_land};
ghost use Rattle.machine.specs.Steps.{at, jumped, branched, ticked};
ghost use Rattle.machine.specs.Views.{tops, store_of, state_of, fetched_at, next_of};
ghost use Rattle.machine.specs.declared.memory.Memory.{Memory as MemoryType};

use crate::cursor::Cursor;
use crate::instruction::Instruction;
use crate::memory::Memory;
use crate::op::Op;
use crate::stop::Stop;

// Whether a taken jump may go there: forward, or onto a tick.
pub(crate) fn may_land(code: &[Instruction], from: usize, to: usize) -> bool
    ensures { result ≡ may_land code.now from to }
{
    if from < to {
        return true;
    }
    to < code.len() && code[to].code == Op::Tick.code()
}

impl Cursor {
    // A jump is taken.
    pub(crate) fn jump(&mut self, code: &[Instruction], from: usize, to: i32) -> Result<(), Stop>
        ensures { (m : MemoryType) (height : ℕ) (b : Meaning) → let u = at (store_of m height) from self.old.left b in next_of result u (state_of m self.new b) ≡ jumped code.now to (tops m.values self.old.height) u }
    {
        self.position = usize::try_from(to)
            .ok()
            .filter(|to| may_land(code, from, *to))
            .ok_or(Stop::Breaks)?;
        Ok(())
    }

    // A tick is spent, or waited for.
    pub(crate) fn tick(&mut self) -> Result<(), Stop>
        ensures { (m : MemoryType) (b : Meaning) (from : ℕ) → self.old.position ≡ from + 1 → let u = fetched_at m self.old from b in next_of result u (state_of m self.new b) ≡ ticked u.left u }
    {
        if self.left == 0 {
            return Err(Stop::Waits);
        }
        self.left -= 1;
        Ok(())
    }
}

impl Memory {
    pub(crate) fn jump_if_zero(
        &self,
        code: &[Instruction],
        from: usize,
        at: &mut Cursor,
        to: i32,
    ) -> Result<(), Stop>
        ensures { (b : Meaning) → at.old.position ≡ from + 1 → let u = fetched_at self.now at.old from b in next_of result u (state_of self.now at.new b) ≡ branched code.now to u.store.stack u }
    {
        let v = self.pop(at)?;
        if v != 0 {
            return Ok(());
        }
        at.jump(code, from, to)
    }
}
