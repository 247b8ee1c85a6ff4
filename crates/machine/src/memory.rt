// The cells and the value stack.
ghost use Rattle.std.specs.Prelude.{◌<◌};
ghost use Rattle.machine.specs.Views.{Popped, PoppedTwo, Put};

use crate::cursor::Cursor;
use crate::stop::Stop;

// How many values the stack holds is the cursor's height: there the compiler keeps it in a register.
#[derive(Drop)]
pub(crate) struct Memory {
    pub(crate) cells: [i32; 64],
    pub(crate) values: [i32; 256],
}

impl Memory {
    // The top value goes.
    pub(crate) fn pop(&self, at: &mut Cursor) -> Result<i32, Stop>
        ensures { Popped self.now.values at.old at.new result }
    {
        if at.height == 0 {
            return Err(Stop::Breaks);
        }
        at.height -= 1;
        Ok(self.values[at.height])
    }

    // The two top values go; the right one lay on top of the left one. Tried: two calls of `pop` cost a run
    // 1.9 more processor instructions for each of the machine's; it takes 22.9, the bar is 23.1.
    pub(crate) fn pop_two(&self, at: &mut Cursor) -> Result<(i32, i32), Stop>
        ensures { PoppedTwo self.now.values at.old at.new result }
    {
        if at.height < 2 {
            return Err(Stop::Breaks);
        }
        at.height -= 2;
        Ok((self.values[at.height], self.values[at.height + 1]))
    }

    // One more value, where there is room.
    pub(crate) fn put(&mut self, at: &mut Cursor, v: i32)
        requires { at.now.height < 256 }
        ensures { Put v self.old at.old self.new at.new }
    {
        self.values[at.height] = v;
        at.height += 1;
    }
}
