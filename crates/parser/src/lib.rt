// The grammar: whether tokens are a script's, and the first that is wrong.
#![tactic(auto)]

mod cursor;
mod expression;
mod fault;
mod script;
mod statement;
mod verdict;

pub use verdict::parse;
