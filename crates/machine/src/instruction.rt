// An instruction.

// What to do, with which operand, and the place in the source that it was made for.
#[derive(Clone, Copy, PartialEq, Eq, Default, Debug)]
pub struct Instruction {
    pub code: i32,
    pub operand: i32,
    pub place: i32,
}
