// A board with no zones that takes no reports.
ghost use Rattle.std.specs.Prelude.{[]};
ghost use Rattle.boards.specs.Meaning.{Meaning};

use boards::Board;
use refusal::{Reason, Refusal};

#[derive(Drop)]
pub struct Closed {}

impl Board for Closed {
    ghost meaning = { λ _. record { columns = 1; rows = 1; zones = []; reports = []; allowance = 0 } };

    fn columns(&self) -> u32 {
        1
    }

    fn rows(&self) -> u32 {
        1
    }

    fn zone(&mut self, i: i32) -> Result<i32, Refusal> {
        Err(Reason::NoSuchZone.into())
    }

    fn report(&mut self, v: i32) -> Result<(), Refusal> {
        Err(Reason::ReportsFull.into())
    }

    fn kept(&mut self, k: usize) -> Option<i32> {
        None
    }
}
