// Where a run stands.
ghost use Rattle.std.specs.Prelude.{◌≤◌};

// The position in the code, the height of the value stack, and the ticks that are left. All fields have 64 bits:
// with no padding between them the compiler keeps each in a register.
#[derive(Clone, Copy)]
pub(crate) struct Cursor {
    pub(crate) position: usize,
    pub(crate) height: usize,
    pub(crate) left: u64,
    ghost fits: { height ≤ 256 },
}
