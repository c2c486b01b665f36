//! PSI5 bursts (PSI5 V2.1, base standard: the Manchester frame, parity and CRC-3): the bits and the waveform
//! of a frame, and the bursts of a data line's edges.
//!
//! A frame is two start bits 0, a payload of 10 to 28 bits and a check of one bit or three. A bit is two
//! half-bits: 0 is low and then high, 1 is high and then low, and the line is low before and after a frame.
//! Edges are one or two half-bits apart within a frame; a longer interval parts bursts. The thresholds, the
//! jitter model, the rules' names and their order are this project's own, and so is that a burst is read only
//! behind a quiet interval that was seen.
#![tactic(auto)]

mod bits;
mod burst;
mod check;
mod frame_bits;
mod meaning;
mod open;
mod reader;
mod setup;

pub use bits::{bits_of, edges_of};
pub use burst::{Burst, BurstStep, Payload};
pub use meaning::{
    bursts_are_counted, bursts_grow, bursts_have_meaning, good_bursts_are_waveforms, payloads_fit,
    waveforms_differ,
};
pub use reader::BurstReader;
pub use setup::{Check, Parts, Psi5Setup};
