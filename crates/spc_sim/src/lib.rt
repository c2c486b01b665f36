//! Triggers and answers of SPC that are sent as messages tell (the frame of an answer: SAE J2716; the rest is this
//! project's own): messages in, edges out.
//!
//! The edges are off by up to the jitter, and ticks and widths are drawn, as a wobble's words say. Which words are
//! drawn for what is this project's own.
#![tactic(auto)]

mod honest;
mod spc_answers;
mod spc_sim;

pub use honest::spc_edges_are_honest;
pub use spc_sim::SpcSim;
