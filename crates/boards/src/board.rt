// The interface of a board: what every kind answers, by its meaning alone.
ghost use Rattle.std.specs.Prelude.{◌≡◌};
ghost use Rattle.refusal.specs.Told.{told};
ghost use Rattle.boards.specs.Meaning.{Meaning, zone_answer, report_answer, reported, kept_answer};

use refusal::Refusal;

// A grid of zones with a list of reports. No call changes anything but the list, and that only by an accepted report.
pub trait Board {
    // What the board means.
    ghost meaning: { Self → Meaning };

    // How many columns the grid has.
    fn columns(&self) -> u32
        ensures { result ≡ (meaning self.now).columns };

    // How many rows the grid has.
    fn rows(&self) -> u32
        ensures { result ≡ (meaning self.now).rows };

    // Zone `i`, from 0. A kind may have to write registers to read a zone, so it takes `&mut self`.
    fn zone(&mut self, i: i32) -> Result<i32, Refusal>
        ensures answer { told result ≡ zone_answer (meaning self.old) i }
        ensures same { meaning self.new ≡ meaning self.old };

    // Puts `v` at the end of the reports, if the allowance permits.
    fn report(&mut self, v: i32) -> Result<(), Refusal>
        ensures answer { told result ≡ report_answer (meaning self.old) }
        ensures after { meaning self.new ≡ reported (meaning self.old) v };

    // Report `k`, from 0.
    fn kept(&mut self, k: usize) -> Option<i32>
        ensures answer { result ≡ kept_answer (meaning self.old) k }
        ensures same { meaning self.new ≡ meaning self.old };
}
