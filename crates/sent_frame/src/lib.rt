//! SENT frames (SAE J2716): the pulses of a frame, and the frames of a list of edges.
//!
//! A pulse is the time from one falling edge to the next. A frame is a calibration pulse of 56 ticks, a
//! status pulse, 1 to 6 data pulses and a CRC pulse, each of 12 ticks and its value; a pause pulse may
//! follow. The reader never learns the sender's tick: it measures each pulse against the frame's own
//! calibration pulse. Thresholds, the jitter model and what is read after a fault are this project's own.
#![tactic(auto)]

mod crc;
mod frame;
mod meaning;
mod position;
mod pulses;
mod reader;
mod setup;
mod values;

pub use crc::{Cover, checked_frame};
pub use frame::{SentFrame, SentStep};
pub use meaning::reports_have_meaning;
pub use position::may_calibrate;
pub use pulses::pulses_of;
pub use reader::SentReader;
pub use setup::{CrcForm, SentSetup};
pub use values::FrameValues;
