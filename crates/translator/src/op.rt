// Instructions, and the code that grows.
ghost use Rattle.std.specs.Prelude.{◌≡◌, ◌^◌, ◌<◌, pos};
ghost use Rattle.stacks.specs.Held.{seen};
ghost use Rattle.machine.specs.Codes.{code_of};
ghost use Rattle.translator.specs.Code.{Appends, Emits, Pushes};

use machine::{Instruction, Op};
use stacks::BoundedStack;

// A position or a place as an int, where it is one.
pub(crate) fn int(n: usize) -> i32
    ensures { n < 2147483648 → result ≡ pos n }
{
    i32::try_from(n).unwrap_or(i32::MAX)
}

// One more instruction. There is room for the code of every script of as many tokens as are read.
fn append(code: &mut BoundedStack<Instruction>, op: Op, operand: i32, place: u32)
    ensures { Appends (seen code.old) (code_of op) operand place (seen code.new) }
{
    let _ = code.push(Instruction {
        code: op.code(),
        operand,
        place: int(place as usize),
    });
}

// One more instruction, with a position or a cell.
pub(crate) fn emit(code: &mut BoundedStack<Instruction>, op: Op, operand: usize, place: u32)
    ensures { Emits (seen code.old) (code_of op) operand place (seen code.new) }
{
    append(code, op, int(operand), place);
}

// One more instruction, that pushes a constant.
pub(crate) fn emit_constant(code: &mut BoundedStack<Instruction>, value: i32, place: u32)
    ensures { Pushes (seen code.old) value place (seen code.new) }
{
    append(code, Op::Push, value, place);
}
