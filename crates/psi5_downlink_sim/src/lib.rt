//! Control units that send what they are told by the tooth gap (the method: PSI5 V2.1, base standard; the rest is this
//! project's own): messages in, edges of the sync line out.
//!
//! The edges are off by up to the jitter, and the period is drawn, as a wobble's words say. Which words are drawn
//! for what is this project's own.
#![tactic(auto)]

mod honest;
mod tooth_rises;
mod tooth_sim;

pub use honest::tooth_edges_are_honest;
pub use tooth_sim::ToothSim;
