//! That a script's messages are sent and heard, up to the 100,000th counted one: a receiver that gets all edges of a
//! simulator tells each frame, answer, burst and downlink frame, and no violated rule.
//!
//! The crate has laws alone: its functions do nothing, and their contracts say what holds.
#![tactic(auto)]

mod adding;
mod heard;
mod psi5;
mod sent;
mod spc;
mod tooth;

pub use adding::good_reports_add_up;
pub use heard::scripted_messages_are_all_heard;
pub use psi5::scripted_bursts_are_heard;
pub use sent::scripted_frames_are_heard;
pub use spc::scripted_answers_are_heard;
pub use tooth::scripted_downlinks_are_heard;
