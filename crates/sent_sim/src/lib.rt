//! SENT sensors that send what they are told (SAE J2716): frames and serial messages in, edges out.
//!
//! The edges are off by up to the jitter, and the tick drifts, as a wobble's words say. Which words are drawn for
//! what is this project's own.
#![tactic(auto)]

mod honest;
mod sent_frames;
mod sent_sim;

pub use honest::sent_edges_are_honest;
pub use sent_sim::SentSim;
