//! How ideal times of a sensor are recorded, how far its ticks may drift, and what the thresholds of
//! `link_math` make of that.
//!
//! Ideal times and ticks are whole numbers of ps, recorded times and the jitter whole numbers of ns. The jitter
//! model and all bounds on drift are this project's own. The crate has laws alone: its functions do nothing,
//! and their contracts say what holds.
#![tactic(auto)]

mod bounds;
mod pulses;

pub use bounds::{
    drift_ends_at_a_200th, jitter_ends_at_its_bound, own_ticks_end_at_a_400th, ticks_end_at_a_fifth,
};
pub use pulses::{
    calibrations_are_heard, drifting_calibrations_are_steady, edges_end_pulses, nibbles_are_heard,
    nibbles_never_calibrate, pauses_are_heard,
};
