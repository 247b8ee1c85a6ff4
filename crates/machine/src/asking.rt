// The instructions that ask the board and may be refused. Two functions: one puts the answer on the stack, the other has none.
ghost use Rattle.machine.specs.Codes.{zone, report};
ghost use Rattle.machine.specs.Operations.{answer};
ghost use Rattle.machine.specs.Views.{store_of, Asks};

use crate::cursor::Cursor;
use crate::memory::Memory;
use crate::stop::Stop;
use boards::Board;

impl Memory {
    pub(crate) fn zone<B: Board>(&mut self, at: &mut Cursor, board: &mut B) -> Result<(), Stop>
        ensures { Asks (answer zone (store_of self.old at.old.height) (B.meaning board.old)) at.old at.new self.new (B.meaning board.new) result }
    {
        let i = self.pop(at)?;
        let v = board.zone(i)?;
        self.put(at, v);
        Ok(())
    }

    pub(crate) fn report<B: Board>(&self, at: &mut Cursor, board: &mut B) -> Result<(), Stop>
        ensures { Asks (answer report (store_of self.now at.old.height) (B.meaning board.old)) at.old at.new self.now (B.meaning board.new) result }
    {
        let v = self.pop(at)?;
        board.report(v)?;
        Ok(())
    }
}
