// Why a run does not go on.
ghost use Rattle.std.specs.Prelude.{◌≡◌};
ghost use Rattle.machine.specs.Views.{carried_of};

use crate::ending::Ending;
use crate::op::UnknownCode;
use refusal::Refusal;

#[derive(Clone, Copy, PartialEq, Eq, Debug)]
pub(crate) enum Stop {
    // For a tick.
    Waits,
    // The instruction ended the run.
    Ends(Ending),
    // The instruction is broken.
    Breaks,
}

impl Stop {
    // An instruction that ends the run counts, a waiting tick and a broken one do not.
    pub(crate) fn counts(self) -> u64
        ensures { result ≡ carried_of self }
    {
        match self {
            Stop::Ends(_) => 1,
            Stop::Waits | Stop::Breaks => 0,
        }
    }
}

impl From<UnknownCode> for Stop {
    ghost use Rattle.machine.specs.declared.stop.Stop.TheVariants.{Breaks};

    ghost from_gives = { λ _ stop. stop ≡ Breaks };

    fn from(_: UnknownCode) -> Stop {
        Stop::Breaks
    }
}

impl From<Refusal> for Stop {
    ghost use Rattle.machine.specs.declared.ending.Ending.TheVariants.{Board};
    ghost use Rattle.machine.specs.declared.stop.Stop.TheVariants.{Ends};

    ghost from_gives = { λ refusal stop. stop ≡ Ends (Board refusal.reason) };

    fn from(refusal: Refusal) -> Stop {
        Stop::Ends(Ending::Board(refusal.reason))
    }
}
