// What a script measures: one interface, several kinds.
#![tactic(auto)]

mod board;
mod crop;
mod frame;
mod grid;
mod measured;
mod reports;
mod stats;
mod tile;
mod window;
mod zones;

pub use board::Board;
pub use crop::{Crop, RefusedCrop};
pub use frame::Frame;
pub use measured::Measured;
pub use reports::Reports;
pub use stats::Stats;
pub use window::Window;
