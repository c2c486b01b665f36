//! The tooth-gap downlink of PSI5 (PSI5 V2.1, base standard: sync pulses that are there or missing say bits,
//! and a CRC-3): what a control unit sends to a sensor.
//!
//! The forms of a frame, their names, field widths and bit order, the start and the inserted ones are this
//! project's own.
#![tactic(auto)]

mod bits;
mod down;
mod frame_bits;
mod meaning;
mod reader;
mod setup;
mod step;
mod verdict;

pub use bits::down_bits;
pub use down::{Down, Form};
pub use meaning::{frames_differ, steps_have_meaning, steps_stay, whole_frames_are_sent};
pub use reader::ToothReader;
pub use setup::ToothSetup;
pub use step::ToothStep;
