//! SPC transactions (Infineon's SPC, in outline alone): the receiver's low trigger pulse, and the sensor's
//! answer in the form of a SENT frame.
//!
//! A trigger begins with a fall after quiet. Its low width chooses a range or a sensor, by a window whose number
//! is the code. After a delay the answer begins with a fall: a calibration pulse, the status, the data nibbles and
//! a CRC, as in SENT. The windows, the delay and the quiet time are set by the caller, and no product's table is
//! meant. What the CRC covers, the ending fall and the rules are this project's own.
#![tactic(auto)]

mod answer;
mod meaning;
mod reader;
mod setup;
mod state;
mod step;
mod trigger;

pub use meaning::{steps_grow, steps_have_meaning, windows_are_codes};
pub use reader::SpcReader;
pub use sent_frame::Cover;
pub use setup::SpcSetup;
pub use step::SpcStep;
pub use trigger::trigger_of;
