//! What simulators of all links share: the random words by which ticks drift and edges are off, the ticks, when
//! edges are recorded, and why a message is refused.
//!
//! Which words are drawn for what is this project's own.
#![tactic(auto)]

mod nibbles;
mod recording;
mod sim_fault;
mod ticks;
mod wobble;

pub use nibbles::fits_nibbles;
pub use recording::{LOW_TICKS, MAX_EDGES, MAX_IDEAL, Pulses, opening, push_edges, record};
pub use sim_fault::SimFault;
pub use ticks::{any_tick, next_tick, own_tick, pause_ticks, push_pulses};
pub use wobble::Wobble;
