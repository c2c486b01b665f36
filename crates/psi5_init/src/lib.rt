//! The 10-bit codes of a PSI5 sensor, and its initialisation phase (PSI5 V2.1, base standard: the reserved
//! codes, and blocks of an ID code and a value code).
//!
//! A phase sends each block's two codes so many times, and then the next block's; `Ready` ends it. What the
//! other codes say, how often a block is sent, that block IDs begin again after 16, and what is read after a
//! fault are this project's own.
#![tactic(auto)]

mod code;
mod meaning;
mod phase;
mod reader;
mod step;

pub use code::{Code, class_of};
pub use meaning::{phases_are_read, steps_break_two_rules, steps_stay};
pub use phase::code_at;
pub use reader::InitReader;
pub use step::InitStep;
