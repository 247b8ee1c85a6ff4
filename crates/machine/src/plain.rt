// The instructions that work on cells and values alone.
ghost use Rattle.machine.specs.Codes.{push, load, store, discard, binary, unary, give};
ghost use Rattle.machine.specs.Operations.{exec};
ghost use Rattle.machine.specs.Views.{store_of, Indexed, Moves};

use crate::cursor::Cursor;
use crate::ending::Ending;
use crate::memory::Memory;
use crate::stop::Stop;
use ints::{Operator, Unary};

// The index of a cell, where there is one.
fn index_of(cell: i32) -> Result<usize, Stop>
    ensures { Indexed cell result }
{
    usize::try_from(cell)
        .ok()
        .filter(|index| *index < 64)
        .ok_or(Stop::Breaks)
}

impl Memory {
    pub(crate) fn push(&mut self, at: &mut Cursor, v: i32) -> Result<(), Stop>
        ensures { Moves (exec (push v) (store_of self.old at.old.height)) at.old at.new self.new result }
    {
        if at.height >= 256 {
            return Err(Stop::Breaks);
        }
        self.put(at, v);
        Ok(())
    }

    pub(crate) fn load(&mut self, at: &mut Cursor, cell: i32) -> Result<(), Stop>
        ensures { Moves (exec (load cell) (store_of self.old at.old.height)) at.old at.new self.new result }
    {
        let index = index_of(cell)?;
        self.push(at, self.cells[index])
    }

    pub(crate) fn store(&mut self, at: &mut Cursor, cell: i32) -> Result<(), Stop>
        ensures { Moves (exec (store cell) (store_of self.old at.old.height)) at.old at.new self.new result }
    {
        let index = index_of(cell)?;
        self.cells[index] = self.pop(at)?;
        Ok(())
    }

    pub(crate) fn discard(&self, at: &mut Cursor) -> Result<(), Stop>
        ensures { Moves (exec discard (store_of self.now at.old.height)) at.old at.new self.now result }
    {
        self.pop(at)?;
        Ok(())
    }

    pub(crate) fn binary(&mut self, at: &mut Cursor, op: Operator) -> Result<(), Stop>
        ensures { Moves (exec (binary op) (store_of self.old at.old.height)) at.old at.new self.new result }
    {
        let (left, right) = self.pop_two(at)?;
        let v = ints::apply(op, left, right).ok_or(Stop::Ends(Ending::Divided))?;
        self.put(at, v);
        Ok(())
    }

    pub(crate) fn unary(&mut self, at: &mut Cursor, op: Unary) -> Result<(), Stop>
        ensures { Moves (exec (unary op) (store_of self.old at.old.height)) at.old at.new self.new result }
    {
        let v = self.pop(at)?;
        self.put(at, ints::change(op, v));
        Ok(())
    }

    pub(crate) fn give(&self, at: &mut Cursor) -> Result<(), Stop>
        ensures { Moves (exec give (store_of self.now at.old.height)) at.old at.new self.now result }
    {
        let v = self.pop(at)?;
        Err(Stop::Ends(Ending::Returned(v)))
    }
}
