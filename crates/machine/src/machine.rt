// The machine between calls.
ghost use Rattle.std.specs.Prelude.{◌≤◌};

use crate::answer::Ended;
use crate::memory::Memory;

#[derive(Drop)]
pub struct Machine {
    pub(crate) memory: Memory,
    pub(crate) position: usize,
    pub(crate) height: usize,
    pub(crate) spent: u64,
    pub(crate) counted: u64,
    pub(crate) over: Option<Ended>,
    ghost fits: { height ≤ 256 },
}
