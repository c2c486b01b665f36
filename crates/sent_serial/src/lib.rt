//! Serial messages of the slow channel (SAE J2716), short and enhanced: two bits in the status nibble of
//! each frame.
//!
//! Bit 3 of a status is the start bit, bit 2 the value bit. A short message is sixteen frames long, and only
//! its first start bit is set; an enhanced one is eighteen frames long, and its first six are. What is this
//! project's own: what a start bit within a short message does, that its CRC is the recommended form over
//! its three nibbles, over which 24 bits the CRC-6 of an enhanced one runs and in which order, and where
//! reading goes on after a fault. A reader keeps the bits of the message that it is in, not the statuses.
#![tactic(auto)]

mod encoders;
mod enhanced;
mod meaning;
mod sending;
mod short;
mod status;
mod step;

pub use encoders::{enhanced_bits, short_bits};
pub use enhanced::EnhancedReader;
pub use meaning::steps_have_meaning;
pub use sending::{enhanced_messages_are_read, short_messages_are_read};
pub use short::ShortReader;
pub use step::SerialStep;
