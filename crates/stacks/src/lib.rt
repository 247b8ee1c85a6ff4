// A stack of bounded height over memory that the caller lends, for every kind of element.
#![tactic(auto)]

mod bounded;

pub use bounded::{BoundedStack, Full};
