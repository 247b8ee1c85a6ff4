// From a source to code.
#![tactic(auto)]

mod callee;
mod counts;
mod define;
mod expression;
mod look;
mod name;
mod op;
mod pending;
mod scope;
mod script;
mod statement;
mod translation;
mod typed;
mod work;

pub use counts::Counts;
pub use layout::scripts_have_faithful_code;
pub use translation::{CODE_LIMIT, translate};
