// The number and the value of an ending.
ghost use Rattle.std.specs.Prelude.{◌≡◌};
ghost use Rattle.machine.specs.Endings.{end_of};

use crate::ending::Ending;
use std::fmt;

impl Ending {
    // The number that stands for the ending.
    pub fn number(self) -> u8
        ensures { result ≡ (end_of self).number }
    {
        match self {
            Ending::Returned(_) => 0,
            Ending::Waiting => 1,
            Ending::Divided => 2,
            Ending::Board(_) => 3,
            Ending::Broken => 4,
        }
    }

    // The value that was returned, or the number of the board's refusal; else 0.
    pub fn value(self) -> i32
        ensures { result ≡ (end_of self).value }
    {
        match self {
            Ending::Returned(v) => v,
            Ending::Board(reason) => i32::from(reason.number()),
            Ending::Waiting | Ending::Divided | Ending::Broken => 0,
        }
    }
}

// The ending's name.
impl fmt::Display for Ending {
    ghost use Rattle.std.specs.Prelude.{Some};
    ghost use Rattle.machine.specs.Endings.{name_of};

    ghost output = { λ ending. Some (name_of ending) };

    fn fmt<W: fmt::Write>(&self, f: &mut fmt::Formatter<W>) -> fmt::Result {
        f.write_str(match *self {
            Ending::Returned(_) => "returned",
            Ending::Waiting => "waiting",
            Ending::Divided => "divided",
            Ending::Board(_) => "board",
            Ending::Broken => "broken",
        })
    }
}
