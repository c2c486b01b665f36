//! Honest traces of an SPC line: triggers of a receiver and answers of a sensor (Infineon's SPC, in outline
//! alone), with ideal times in ps and a tick of its own for each pulse, and the edges that are recorded of them
//! in ns, with jitter. What is read of such a trace is exactly its transactions, from the first on whose
//! trigger falls after quiet.
//!
//! The jitter model and the bounds are this project's own. The crate has laws alone: its functions do nothing,
//! and their contracts say what holds.
#![tactic(auto)]

mod bounds;
mod honest;

pub use bounds::{
    delays_end_two_jitters_inside, quiet_times_end_two_jitters_later, widths_end_two_jitters_inside,
};
pub use honest::{
    a_last_rise_may_be_missing, honest_answers_are_read, honest_traces_may_open_later,
    nominal_answers_are_honest, trains_have_honest_traces,
};
