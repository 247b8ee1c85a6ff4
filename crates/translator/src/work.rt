// The state of a translation.
use crate::name::Name;
use crate::pending::Jump;
use machine::Instruction;
use stacks::BoundedStack;

// The three stacks of a translation: the names in force, the jumps that wait for the end of their loop, and the code.
#[derive(Drop)]
pub(crate) struct Work<'a> {
    pub(crate) names: BoundedStack<'a, Name>,
    pub(crate) jumps: BoundedStack<'a, Jump>,
    pub(crate) code: BoundedStack<'a, Instruction>,
}
