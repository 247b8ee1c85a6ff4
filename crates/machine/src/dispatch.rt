// One instruction, by its code.
ghost use Rattle.std.specs.Prelude.{◌≡◌, ◌+◌, pos};
ghost use Rattle.machine.specs.Codes.{code_of, decode};
ghost use Rattle.machine.specs.Steps.{performed, step};
ghost use Rattle.machine.specs.Views.{state_of, fetched_at, next_of, after};

use crate::cursor::Cursor;
use crate::instruction::Instruction;
use crate::memory::Memory;
use crate::op::Op;
use crate::stop::Stop;
use boards::Board;
use ints::{Operator, Unary};

impl Memory {
    // Carries out the instruction at the cursor. What stops may leave the cursor anywhere.
    pub(crate) fn step<B: Board>(
        &mut self,
        code: &[Instruction],
        at: &mut Cursor,
        board: &mut B,
    ) -> Result<(), Stop>
        ensures { after result at.old at.new self.new (B.meaning board.new) ≡ step code.now (state_of self.old at.old (B.meaning board.old)) }
    {
        let from = at.position;
        let Some(instruction) = code.get(from) else {
            return Err(Stop::Breaks);
        };
        let op = Op::try_from(instruction.code)?;
        at.position += 1;
        self.perform(op, instruction.operand, code, from, at, board)
    }

    // Carries out the instruction that was fetched at `from`; the cursor is already on the next one.
    fn perform<B: Board>(
        &mut self,
        op: Op,
        operand: i32,
        code: &[Instruction],
        from: usize,
        at: &mut Cursor,
        board: &mut B,
    ) -> Result<(), Stop>
        ensures { at.old.position ≡ from + 1 → next_of result (fetched_at self.new at.old from (B.meaning board.new)) (state_of self.new at.new (B.meaning board.new)) ≡ performed code.now (fetched_at self.old at.old from (B.meaning board.old)) (decode (pos (code_of op)) operand) }
    {
        match op {
            Op::Push => self.push(at, operand),
            Op::Load => self.load(at, operand),
            Op::Store => self.store(at, operand),
            Op::Pop => self.discard(at),
            Op::Add => self.binary(at, Operator::Add),
            Op::Subtract => self.binary(at, Operator::Sub),
            Op::Multiply => self.binary(at, Operator::Mul),
            Op::Divide => self.binary(at, Operator::Div),
            Op::Remainder => self.binary(at, Operator::Rem),
            Op::Low => self.unary(at, Unary::Low),
            Op::Less => self.binary(at, Operator::Less),
            Op::Greater => self.binary(at, Operator::Greater),
            Op::Equal => self.binary(at, Operator::Equal),
            Op::Not => self.unary(at, Unary::Not),
            Op::Jump => at.jump(code, from, operand),
            Op::JumpIfZero => self.jump_if_zero(code, from, at, operand),
            Op::Tick => at.tick(),
            Op::Zone => self.zone(at, board),
            Op::Columns => self.push(at, ints::signed(board.columns())),
            Op::Rows => self.push(at, ints::signed(board.rows())),
            Op::Report => self.report(at, board),
            Op::Return => self.give(at),
        }
    }
}
