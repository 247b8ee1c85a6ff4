// The instructions by name.
ghost use Rattle.std.specs.Prelude.{◌≡◌, pos};
ghost use Rattle.machine.specs.Codes.{code_of};

// What an instruction does; its number is its place in this list.
#[derive(Clone, Copy, PartialEq, Eq, Debug)]
pub enum Op {
    Push,
    Load,
    Store,
    Pop,
    Add,
    Subtract,
    Multiply,
    Divide,
    Remainder,
    Low,
    Less,
    Greater,
    Equal,
    Not,
    Jump,
    JumpIfZero,
    Tick,
    Zone,
    Columns,
    Rows,
    Report,
    Return,
}

// A number that no instruction has.
#[derive(Clone, Copy, PartialEq, Eq, Debug)]
pub struct UnknownCode(pub i32);

impl Op {
    // The number that stands for it in code.
    pub fn code(self) -> i32
        ensures { result ≡ pos (code_of self) }
    {
        self as i32
    }
}

impl TryFrom<i32> for Op {
    ghost use Rattle.machine.specs.Codes.{Names};

    type Error = UnknownCode;

    ghost try_from_gives = { Names };

    fn try_from(code: i32) -> Result<Op, UnknownCode> {
        match code {
            0 => Ok(Op::Push),
            1 => Ok(Op::Load),
            2 => Ok(Op::Store),
            3 => Ok(Op::Pop),
            4 => Ok(Op::Add),
            5 => Ok(Op::Subtract),
            6 => Ok(Op::Multiply),
            7 => Ok(Op::Divide),
            8 => Ok(Op::Remainder),
            9 => Ok(Op::Low),
            10 => Ok(Op::Less),
            11 => Ok(Op::Greater),
            12 => Ok(Op::Equal),
            13 => Ok(Op::Not),
            14 => Ok(Op::Jump),
            15 => Ok(Op::JumpIfZero),
            16 => Ok(Op::Tick),
            17 => Ok(Op::Zone),
            18 => Ok(Op::Columns),
            19 => Ok(Op::Rows),
            20 => Ok(Op::Report),
            21 => Ok(Op::Return),
            _ => Err(UnknownCode(code)),
        }
    }
}
