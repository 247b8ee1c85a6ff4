// The whole way: a source, its tokens, its script, its code.
ghost use Rattle.std.specs.Prelude.{◌≡◌, ◌≤◌, ◌++◌, length, drop};
ghost use Rattle.refusal.specs.Told.{told};
ghost use Rattle.stacks.specs.Held.{seen};
ghost use Rattle.translator.specs.Scripts.{SizesAre, CompilesScript, Compiles};
ghost use Rattle.translator.specs.Translation.{Translation, tokens_after, OneAnswer};

use crate::counts::Counts;
use crate::name::Name;
use crate::pending::Jump;
use crate::work::Work;
use lexer::{SOURCE_LIMIT, TOKEN_LIMIT, Token, read};
use lookahead::Text;
use machine::Instruction;
use parser::parse;
use refusal::{Reason, Refusal};
use stacks::BoundedStack;

// The most instructions of a script: four a token. A code list has at least as many records.
pub const CODE_LIMIT: usize = 4 * TOKEN_LIMIT;

// Room for the names of a script: fewer than one a token, and four that no token defines.
const NAMES: usize = TOKEN_LIMIT + 4;

// A source that is not too long, and lists that are long enough. The reading tests the first two again; here they are tested
// before the third, and all before anything is read.
fn check_sizes(source: &[u8], tokens: &[Token], code: &[Instruction]) -> Result<(), Refusal>
    ensures { SizesAre source.now tokens.now code.now result }
{
    if source.len() > SOURCE_LIMIT {
        return Err(Reason::SourceTooLong.into());
    }
    if tokens.len() < TOKEN_LIMIT {
        return Err(Reason::TokenListShort.into());
    }
    if code.len() < CODE_LIMIT {
        return Err(Reason::CodeListShort.into());
    }
    Ok(())
}

// Copies code into the first records of a list, and answers how many they are.
fn copy_code(from: &BoundedStack<Instruction>, to: &mut [Instruction]) -> usize
    ensures count { result ≡ length (seen from.now).held }
    ensures list { result ≤ length to.old → to.new ≡ (seen from.now).held ++ drop result to.old }
{
    let made = from.as_slice();
    let fitting = made.len().min(to.len());
    to[..fitting].copy_from_slice(&made[..fitting]);
    made.len()
}

// Compiles the tokens of a script. Apart from `compile` for speed: lists that are made after a check are written twice, as
// their function begins and then again, which were 76 KiB more for each source, a refused one's too.
fn compile_script(
    source: &[u8],
    tokens: &[Token],
    code: &mut [Instruction],
) -> Result<usize, Refusal>
    ensures { CompilesScript source.now tokens.now code.old code.new result }
{
    let mut names = [Name::default(); NAMES];
    let mut jumps = [Jump::default(); TOKEN_LIMIT];
    let mut records = [Instruction::default(); CODE_LIMIT];
    let mut work = Work {
        names: BoundedStack::new(&mut names),
        jumps: BoundedStack::new(&mut jumps),
        code: BoundedStack::new(&mut records),
    };
    work.script(&Text { source, tokens })?;
    Ok(copy_code(&work.code, code))
}

// Compiles the tokens of a source, and answers how many instructions came of them. The list changes only where the tokens
// are a script's that passes the check.
fn compile(source: &[u8], tokens: &[Token], code: &mut [Instruction]) -> Result<usize, Refusal>
    ensures { Compiles source.now tokens.now code.old code.new result }
{
    parse(source, tokens)?;
    compile_script(source, tokens, code)
}

// Translates a source: its tokens come into the first records of `tokens`, its code into those of `code`, and the answer is
// how many each are. Further records stay as they were. A fault is refused with its place, and the code list stays as it
// was then.
pub fn translate(
    source: &[u8],
    tokens: &mut [Token],
    code: &mut [Instruction],
) -> Result<Counts, Refusal>
    ensures answer { Translation source.now (length tokens.old) code.old code.new (told result) }
    ensures list { tokens.new ≡ tokens_after source.now (length code.old) tokens.old }
    ensures only { OneAnswer }
{
    check_sizes(source, tokens, code)?;
    let count = read(source, tokens)?;
    let records = compile(source, &tokens[0..count], code)?;
    Ok(Counts {
        tokens: count,
        code: records,
    })
}
