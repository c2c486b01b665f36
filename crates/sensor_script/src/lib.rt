//! Messages that a channel's setup has room for, drawn by random words: what a sensor or a control unit may be told to
//! send, one message after the other.
//!
//! Which words are drawn for what, and in which order messages come, is this project's own.
#![tactic(auto)]

mod draws;
mod laws;
mod script;

pub use laws::drawn_codes_are_signals;
pub use script::Script;
