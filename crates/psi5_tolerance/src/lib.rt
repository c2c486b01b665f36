//! Honest traces of a PSI5 channel (PSI5 V2.1, base standard: the Manchester frame, and time slots behind a
//! sync pulse): sync pulses and frames as they are sent, with ideal times in ps and half-bits of their own,
//! and the edges that are recorded of them in ns, with jitter. What is read of such a trace is exactly its
//! frames, from the first on that begins behind a quiet interval and, where there are slots, behind a sync
//! pulse that was seen.
//!
//! The jitter model and the bounds are this project's own. The crate has laws alone: its functions do
//! nothing, and their contracts say what holds.
#![tactic(auto)]

mod bounds;
mod exact;
mod meaning;

pub use bounds::{answers_have_bounds, frames_have_bounds, sync_pulses_have_bounds};
pub use exact::{exact_trains_are_honest, nominal_bursts_are_honest, nominal_bursts_are_read};
pub use meaning::{
    half_bits_are_heard, honest_bursts_are_in_their_slots, honest_bursts_are_read,
    no_frame_is_missing,
};
