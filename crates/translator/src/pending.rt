// Forward jumps whose target is not known yet.
ghost use Rattle.std.specs.Prelude.{◌≡◌, ◌<◌, Bool, List, [], ◌∷◌, ◌++◌, length, MatchResult, Ok, Err};
ghost use Rattle.machine.specs.declared.instruction.Instruction.{Instruction as Record};
ghost use Rattle.machine.specs.Codes.{code_of};
ghost use Rattle.stacks.specs.Held.{seen, holding};
ghost use Rattle.translator.specs.Code.{Emits, Lands, LandsAll};

use crate::op::{emit, int};
use machine::{Instruction, Op};
use refusal::Refusal;
use stacks::BoundedStack;

// A jump without its target, by its position. It cannot be let go: it is landed once, kept for the end of its loop, or given
// up where a fault ends the translation.
pub(crate) struct PendingJump {
    at: usize,
}

// A `break` or `continue` that waits for the end of its loop. Both have a position and nothing else, so which it is stands
// beside it.
#[derive(Clone, Copy, PartialEq, Eq, Debug, Default)]
pub(crate) struct Jump {
    pub(crate) at: usize,
    // A `break`, which leaves the loop.
    pub(crate) leaves: bool,
}

impl PendingJump {
    // Emits a jump.
    pub(crate) fn emit(code: &mut BoundedStack<Instruction>, op: Op, place: u32) -> PendingJump
        ensures at { result.at ≡ length (seen code.old).held }
        ensures code { Emits (seen code.old) (code_of op) 0 place (seen code.new) }
    {
        let at = code.len();
        emit(code, op, 0, place);
        PendingJump { at }
    }

    // Sets the target.
    pub(crate) fn land(self, code: &mut BoundedStack<Instruction>, target: usize)
        ensures { Lands (seen code.old) self.at target (seen code.new) }
    {
        let PendingJump { at } = self;
        if let Some(mut jump) = code.get(at) {
            jump.operand = int(target);
            code.replace(at, jump);
        }
    }

    // The jump beside what was read after it; given up where that was refused.
    pub(crate) fn after<T>(self, read: Result<T, Refusal>) -> Result<(PendingJump, T), Refusal>
        ensures { MatchResult result (λ p. (p.0 ≡ self) × (read ≡ Ok p.1)) (λ f. read ≡ Err f) }
    {
        match read {
            Ok(value) => Ok((self, value)),
            Err(refusal) => {
                self.give_up();
                Err(refusal)
            }
        }
    }

    // Leaves the jump without a target.
    fn give_up(self) {
        let PendingJump { at: _ } = self;
    }

    // Keeps the jump until its loop ends.
    pub(crate) fn keep(self, jumps: &mut BoundedStack<Jump>, leaves: bool)
        ensures { length (seen jumps.old).held < (seen jumps.old).most → seen jumps.new ≡ holding ((seen jumps.old).held ++ (record { at = self.at; leaves = leaves } ∷ [])) (seen jumps.old).most }
    {
        let PendingJump { at } = self;
        let _ = jumps.push(Jump { at, leaves });
    }
}

// Lands the jumps that were kept since there were `mark` of them: a `break` at `exit`, a `continue` at `next`.
// It pops each as it lands it, so each is landed once; a slice from `mark` on would need that there are so many.
pub(crate) fn land_all(
    jumps: &mut BoundedStack<Jump>,
    mark: usize,
    code: &mut BoundedStack<Instruction>,
    exit: usize,
    next: usize,
)
    ensures { LandsAll (seen jumps.old) (seen code.old) mark exit next (seen jumps.new) (seen code.new) }
{
    'landing: while jumps.len() > mark {
        if let Some(jump) = jumps.pop() {
            let target = if jump.leaves { exit } else { next };
            PendingJump { at: jump.at }.land(code, target);
        }
    }
}
