//! Honest traces of a PSI5 line's tooth-gap downlink: messages as a control unit sends them (PSI5 V2.1, base
//! standard), with ideal times in ps and periods that are off by up to a twentieth, and the rises that are
//! recorded of them in ns, with jitter. What is read of such a trace is exactly its messages, from the first on
//! whose gap is recorded.
//!
//! The jitter model and the bounds are this project's own. The crate has laws alone: its functions do nothing,
//! and their contracts say what holds.
#![tactic(auto)]

mod bounds;
mod honest;
mod intervals;
mod worked;

pub use bounds::{gaps_miss_five_pulses, intervals_end_at_a_twentieth};
pub use honest::{
    honest_downlinks_are_read, nominal_downlinks_are_honest, recorded_gaps_are_read,
    silent_lines_are_honest, trains_have_honest_traces,
};
pub use intervals::intervals_are_heard;
pub use worked::a_worked_trace_is_read;
