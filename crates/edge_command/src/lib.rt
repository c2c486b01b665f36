//! The commands of the receiver: words and bytes in, report lines and a reason out.
#![tactic(auto)]

mod explained;
mod plain;

pub use explained::{EXPLAINED_ROOM, explain};
pub use plain::{Plain, run_plain};
