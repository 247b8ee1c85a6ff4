// The tokens of a script.
#![tactic(auto)]

mod class;
mod kind;
mod list;
mod reader;
mod scan;
mod spellings;

pub use kind::{Kind, Token};
pub use list::{SOURCE_LIMIT, TOKEN_LIMIT, read, text};
pub use spellings::spelling;
