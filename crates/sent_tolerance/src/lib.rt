//! Honest traces of a SENT line: frames as a sensor sends them (SAE J2716), with ideal times in ps, a tick of
//! its own for each pulse and drift from frame to frame, and the edges that are recorded of them in ns, with
//! jitter. What is read of such a trace is exactly its frames, from the first whole one on.
//!
//! The jitter model and the bounds on drift are this project's own. The crate has laws alone: its functions
//! do nothing, and their contracts say what holds.
#![tactic(auto)]

mod bounds;
mod honest;
mod worked;

pub use bounds::pauses_end_at_12_and_768_ticks;
pub use honest::{
    honest_frames_are_read, jittered_frames_are_honest, nominal_frames_are_honest,
    trains_have_honest_traces,
};
pub use worked::a_worked_trace_is_read;
