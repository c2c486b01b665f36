//! The lines that a simulated sensor is told to send: bytes in, messages out.
//!
//! A line is a word and what stands behind it, fields with one space between each two, each spelled as in a line
//! of a report. Which words there are, and which values fit, is told by what the channel is set up with. The
//! words and the order of the faults are this project's own.
#![tactic(auto)]

mod downlink;
mod fields;
mod fits;
mod line;
mod list_laws;
mod psi5;
mod reader;
mod sent;
mod spc;

pub use fits::message_fits;
pub use line::message_of;
pub use list_laws::{
    answered_messages_fit, answers_grow, faults_stay, written_messages_are_read_back,
};
pub use reader::MessageReader;
