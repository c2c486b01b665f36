//! Sync pulses and bursts of PSI5 that are sent as messages tell (the frames and the slots: PSI5 V2.1, base
//! standard; the rest is this project's own): messages in, edges out.
//!
//! The edges are off by up to the jitter, and half-bits and starts are drawn, as a wobble's words say. Which words
//! are drawn for what is this project's own.
#![tactic(auto)]

mod bursts;
mod honest;
mod psi5_sim;

pub use honest::psi5_edges_are_honest;
pub use psi5_sim::Psi5Sim;
