// The calls of an engine. A refused call leaves everything as it was.
ghost use Rattle.std.specs.Prelude.{◌≡◌, List, length, Some, None};
ghost use Rattle.refusal.specs.Told.{told};
ghost use Rattle.boards.specs.Meaning.{Meaning};
ghost use Rattle.translator.specs.Translation.{tokens_after, OneAnswer};
ghost use Rattle.engine.specs.Views.{holds, ready, records, told_go};
ghost use Rattle.engine.specs.Calls.{Loads, Rewinds, Goes, unless, go_reasons};
ghost use Rattle.engine.specs.Log.{empty};
ghost use Rattle.engine.specs.Agreement.{state, Agrees};
ghost use Rattle.engine.specs.Successions.{load, rewind, go, Lawful, OneJudgement};

use crate::engine::Engine;
use boards::Board;
use lexer::Token;
use machine::{Answer, Instruction, Machine};
use refusal::{Reason, Refusal};
use translator::{Counts, translate};

// The most ticks of one go.
const TICK_LIMIT: u32 = 1_000_000;

// The most ticks of all goes since a load or rewind.
const GRANT_LIMIT: u64 = 4_000_000_000;

impl Engine {
    // An engine with nothing loaded.
    pub fn new() -> Engine
        ensures new { holds result ≡ ready None }
        ensures law { (code : List Instruction) (b : Meaning) → Agrees (empty b) (state (holds result) code b) }
    {
        Engine {
            loaded: None,
            machine: Machine::new(),
            granted: 0,
        }
    }

    // Translates a source into the first records of the code list, which are then about to run from their start. The first
    // records of the token list are the tokens that were read, also where the source is refused for what it says.
    pub fn load(
        &mut self,
        source: &[u8],
        tokens: &mut [Token],
        code: &mut [Instruction],
    ) -> Result<Counts, Refusal>
        ensures does { Loads source.now (length tokens.old) (holds self.old) code.old (told result) (holds self.new) code.new }
        ensures list { tokens.new ≡ tokens_after source.now (length code.old) tokens.old }
        ensures only { OneAnswer }
        ensures one { OneJudgement }
        ensures law { (b : Meaning) → Lawful (state (holds self.old) code.old b) (load source.now tokens.old) (told result) (state (holds self.new) code.new b) }
    {
        let counts = translate(source, tokens, code)?;
        self.start(counts.code);
        Ok(counts)
    }

    // Lets the loaded code start anew; what was reported stays reported.
    pub fn rewind(&mut self) -> Result<(), Refusal>
        ensures does { Rewinds (holds self.old) (told result) (holds self.new) }
        ensures law { (code : List Instruction) (b : Meaning) → Lawful (state (holds self.old) code b) rewind (told result) (state (holds self.new) code b) }
    {
        let count = self.loaded.ok_or(Reason::NothingLoaded)?;
        self.start(count);
        Ok(())
    }

    // Lets the loaded records of the code list run on with more ticks, whatever they are now.
    pub fn go<B: Board>(
        &mut self,
        code: &[Instruction],
        board: &mut B,
        ticks: u32,
    ) -> Result<Answer, Refusal>
        ensures does { Goes (holds self.old) code.now (B.meaning board.old) ticks (told_go result) (holds self.new) (B.meaning board.new) }
        ensures law { Lawful (state (holds self.old) code.now (B.meaning board.old)) (go ticks) (told_go result) (state (holds self.new) code.now (B.meaning board.new)) }
    {
        let count = self.may_go(code.len(), ticks)?;
        self.granted += u64::from(ticks);
        Ok(self.machine.run(code, count, board, ticks))
    }

    // The first `count` records are about to run from their start.
    fn start(&mut self, count: usize)
        ensures { holds self.new ≡ ready (Some count) }
    {
        self.loaded = Some(count);
        self.machine = Machine::new();
        self.granted = 0;
    }

    // How many records a go with these ticks runs of a code list of `slots` records, unless it is refused.
    fn may_go(&self, slots: usize, ticks: u32) -> Result<usize, Refusal>
        ensures { told result ≡ unless (go_reasons (holds self.now) slots ticks) (records self.now.loaded) }
    {
        let count = self.loaded.ok_or(Reason::NothingLoaded)?;
        if slots < count {
            return Err(Reason::CodeListCut.into());
        }
        if ticks > TICK_LIMIT {
            return Err(Reason::TooManyTicks.into());
        }
        if self.machine.is_over() {
            return Err(Reason::RunOver.into());
        }
        if self.granted + u64::from(ticks) > GRANT_LIMIT {
            return Err(Reason::GrantTooLarge.into());
        }
        Ok(count)
    }
}
