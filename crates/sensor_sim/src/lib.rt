//! Sensors and control units of any channel that send what they are told: messages in, edges of the channel's lines
//! out.
//!
//! Each link has its simulator in a crate of its own; here one is chosen by the channel's setup. The edges are off by
//! up to the jitter, and lengths are drawn, as a wobble's words say. Which words are drawn for what is this project's
//! own.
#![tactic(auto)]

mod honest;
mod played;
mod refusals;
mod sim;
mod transactions;

pub use honest::{setups_are_accepted, simulated_edges_are_honest};
pub use played::played_edges_are_honest;
pub use refusals::refused_messages_change_nothing;
pub use sim::Sim;
pub use transactions::transactions_keep_quiet;
