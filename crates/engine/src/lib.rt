// Load a script, rewind it, and let it go on by ticks.
#![tactic(auto)]

mod calls;
mod check;
mod engine;
mod laws;

pub use check::fennec_check;
pub use engine::Engine;
pub use laws::successions_are_lawful;
