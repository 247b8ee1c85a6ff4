// What stands at a place in a list of tokens, as the grammar sees it.
#![tactic(auto)]

mod class;
mod head;
mod text;

pub use class::{LOOSEST, Lead, Start};
pub use head::part;
pub use text::Text;
