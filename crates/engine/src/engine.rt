// An engine between calls.
ghost use Rattle.std.specs.Prelude.{◌≤◌};

use machine::Machine;

// How many records were loaded, the machine that runs them, and the ticks of all goes since the load or the latest rewind.
#[derive(Drop)]
pub struct Engine {
    pub(crate) loaded: Option<usize>,
    pub(crate) machine: Machine,
    pub(crate) granted: u64,
    ghost within: { granted ≤ 4000000000 },
}
