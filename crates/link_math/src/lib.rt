//! What a length of time means on a SENT link and on a PSI5 data line, the 4-bit CRC of a SENT frame, the
//! 6-bit CRC of an enhanced serial message (SAE J2716), and the parity and the 3-bit CRC of a PSI5 frame
//! (PSI5 V2.1, base standard).
//!
//! A receiver never learns a SENT sender's tick: it measures a frame's other pulses against the frame's
//! calibration pulse. Intervals of a PSI5 data line are measured against the nominal bit time, and those of its
//! sync line against the nominal sync period. So each test of a length is an inequality between whole
//! numbers, with no state. Times are in ns, at most 10^15: below that each product fits a `u64`. How far a
//! length may be off is this project's own.
#![tactic(auto)]

mod frame_check;
mod manchester;
mod message_check;
mod nibble_check;
mod sent;
mod tooth_gap;

pub use frame_check::{crc3, parity};
pub use manchester::{Halves, halves_of};
pub use message_check::crc6;
pub use nibble_check::{crc4, crc4_legacy};
pub use sent::{CALIBRATION_TICKS, nibble_of, pause_fits, steady, window};
pub use tooth_gap::periods_of;
