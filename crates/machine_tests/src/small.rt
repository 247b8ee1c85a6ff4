// A board of two zones, 10 and 20, that takes one report.
ghost use Rattle.std.specs.Prelude.{[], ◌∷◌, pos};
ghost use Rattle.boards.specs.Meaning.{Meaning};
ghost use Rattle.machine_tests.specs.Reports.{reports_of};

use boards::Board;
use refusal::{Reason, Refusal};

#[derive(Drop)]
pub struct Small {
    pub report: Option<i32>,
}

impl Board for Small {
    ghost meaning = { λ s. record { columns = 2; rows = 1; zones = pos 10 ∷ (pos 20 ∷ []); reports = reports_of s.report; allowance = 1 } };

    fn columns(&self) -> u32 {
        2
    }

    fn rows(&self) -> u32 {
        1
    }

    fn zone(&mut self, i: i32) -> Result<i32, Refusal> {
        match i {
            0 => Ok(10),
            1 => Ok(20),
            _ => Err(Reason::NoSuchZone.into()),
        }
    }

    fn report(&mut self, v: i32) -> Result<(), Refusal> {
        match self.report {
            Some(_) => Err(Reason::ReportsFull.into()),
            None => {
                self.report = Some(v);
                Ok(())
            }
        }
    }

    fn kept(&mut self, k: usize) -> Option<i32> {
        if k == 0 { self.report } else { None }
    }
}
