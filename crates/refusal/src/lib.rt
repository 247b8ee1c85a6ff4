// Why a call is refused, and where: one type for every layer.
#![tactic(auto)]

mod reason;

pub use reason::{Reason, Refusal};
