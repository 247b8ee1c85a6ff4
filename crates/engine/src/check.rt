// The check of a source, as one number.
ghost use Rattle.translator.specs.Translation.{OneAnswer};
ghost use Rattle.engine.specs.Checked.{Checked};

use lexer::{TOKEN_LIMIT, Token};
use machine::Instruction;
use translator::{CODE_LIMIT, translate};

// Whether a source would be loaded: 0, or the number of its refusal times 65,536 and the place. The lists are its own.
pub fn fennec_check(source: &[u8]) -> u32
    ensures answer { Checked source.now result }
    ensures only { OneAnswer }
{
    let mut tokens = [Token::default(); TOKEN_LIMIT];
    let mut code = [Instruction::default(); CODE_LIMIT];
    match translate(source, &mut tokens, &mut code) {
        Ok(_) => 0,
        Err(refusal) => u32::from(refusal.reason.number()) * 65_536 + refusal.place,
    }
}
