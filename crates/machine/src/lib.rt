// The stack machine: any code list, run with a number of ticks, and resumed with more.
#![tactic(auto)]

mod answer;
mod asking;
mod calls;
mod cursor;
mod dispatch;
mod ending;
mod endings;
mod instruction;
mod jumps;
mod machine;
mod memory;
mod op;
mod plain;
mod running;
mod settling;
mod stop;

pub use answer::{Answer, Ended};
pub use ending::Ending;
pub use instruction::Instruction;
pub use machine::Machine;
pub use op::{Op, UnknownCode};
