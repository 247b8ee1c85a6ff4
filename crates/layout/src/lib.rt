// From a checked script to code.
#![tactic(auto)]

mod laws;

pub use laws::scripts_have_faithful_code;
