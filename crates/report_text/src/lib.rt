//! The lines that tell what a receiver reports: a report or a tally in, its line out, and back.
//!
//! A line is fields with one space between each two: the channel, the place, a keyword and what stands behind
//! it. Each report has one line, and that line alone is read as it. Lines stand here without their LF. Their
//! words, their spellings and the order of the faults are this project's own.
#![tactic(auto)]

mod code;
mod decimal;
mod downlink;
mod fault;
mod fields;
mod gaps;
pub mod hex;
mod line;
mod psi5;
mod rules;
mod sent;
mod spc;
mod totals;

pub use decimal::{digit_of, has_leading_zero, push_decimal};
pub use fault::TextFault;
pub use fields::spells;
pub use line::{LINE_ROOM, read_report, write_report};
pub use totals::{TOTAL_ROOM, write_total};
