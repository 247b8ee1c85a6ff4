// Whole numbers of 32 bits with a sign, as the stack machine computes with them.
#![tactic(auto)]

mod binary;
mod operator;
mod unary;

pub use binary::apply;
pub use operator::{Operator, Unary};
pub use unary::{change, signed};
